// Changes to the lines to the clients, and what stands at the head of one. Definitions: specs/Trial.antt of trial_core.
#![tactic(auto)]

ghost use Rattle.std.specs.Prelude.{◌≡◌, true, ◌<◌};
ghost use Rattle.message.specs.Layout.{client_count};
ghost use Rattle.trial_core.specs.Trial.{with_reply, with_refused, without_reply, without_broadcast, reply_first, broadcast_first};

use trial_core::Lines;

// The lines with a reply at the end of that to client `i` + 1, which now has no invoke to be offered again.
#[tactic(auto, unfolding(trial_core::specs::Trial::with_reply))]
pub fn with_reply(mut l: Lines, i: usize, passed: u32, length: u32) -> Lines
    requires { i < client_count }
    ensures { result ≡ with_reply l i passed length }
{
    l.before[i] = passed;
    l.lengths[i] = length;
    l.refused[i] = false;
    l
}

// The lines with the invoke of client `i` + 1 to be offered again.
#[tactic(auto, unfolding(trial_core::specs::Trial::with_refused))]
pub fn with_refused(mut l: Lines, i: usize) -> Lines
    requires { i < client_count }
    ensures { result ≡ with_refused l i }
{
    l.refused[i] = true;
    l
}

// The lines without the reply to client `i` + 1.
#[tactic(auto, unfolding(trial_core::specs::Trial::without_reply))]
pub fn without_reply(mut l: Lines, i: usize) -> Lines
    requires { i < client_count }
    ensures { result ≡ without_reply l i }
{
    l.lengths[i] = 0;
    l
}

// The lines without the broadcast that is next to client `i` + 1.
#[tactic(auto, unfolding(trial_core::specs::Trial::without_broadcast))]
pub fn without_broadcast(mut l: Lines, i: usize, passed: u32) -> Lines
    requires { (i < client_count) × (broadcast_first l i passed ≡ true) }
    ensures { result ≡ without_broadcast l i }
{
    l.next[i] += 1;
    l
}

// Whether the head of the line to client `i` + 1 is its reply.
pub fn reply_first(l: &Lines, i: usize) -> bool
    requires { i < client_count }
    ensures { result ≡ reply_first l.now i }
{
    l.lengths[i] != 0 && l.lengths[i] <= trial_core::INVOKE_ROOM as u32 && l.before[i] == l.next[i]
}

// Whether a broadcast is next to client `i` + 1, where it is not the reply.
pub fn broadcast_first(l: &Lines, i: usize, passed: u32) -> bool
    requires { i < client_count }
    ensures { result ≡ broadcast_first l.now i passed }
{
    l.next[i] < passed
}
