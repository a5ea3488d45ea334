// What a line of input does with a client: invoking, and taking the head of a line. Definitions: specs/Trial.antt of trial_core.
#![tactic(auto)]

ghost use Rattle.std.specs.Prelude.{◌≡◌, ◌<◌, ◌≤◌, get_or};
ghost use Rattle.message.specs.Layout.{client_count};
ghost use Rattle.trial_core.specs.Sizes.{invoke_room};
ghost use Rattle.trial_core.specs.Trial.{invoke_move, reply_move, deliver_move, replica_of};
ghost use Rattle.trial_core.specs.Moves.{move_of};

use trial_core::{Lent, Moved, Trial};
use trial_said::LineWord;

// ---- invoking

// Invokes an operation at client `i` + 1; the invoke reaches the server without delay.
pub fn invoke(t: &Trial, i: usize, kind: u8, cell: u8, amount: u8, lent: &mut Lent) -> Moved
    requires { i < client_count }
    ensures { move_of result lent.new
        ≡ invoke_move (replica_of t.now i) t.now.server t.now.lines i kind cell amount lent.old }
{
    let at = i * message::INVOKE_LENGTH;
    let room = &mut lent.invokes[at..at + message::INVOKE_LENGTH];
    let q = client::invoke(t.replica(i), kind, cell, amount, 0, room);
    if trial_outcome::is_success(q.outcome) {
        let m = lent.invoke_of(i);
        let o = trial_offer::offer(t.server, t.lines, i, &m, &mut lent.replies);
        Moved {
            replica: q.replica,
            server: o.server,
            lines: o.lines,
            said: o.said,
        }
    } else {
        Moved {
            replica: q.replica,
            server: t.server,
            lines: t.lines,
            said: trial_outcome::told_said(q.outcome),
        }
    }
}

// ---- delivering

// Client `i` + 1 takes the reply at the head of its line; its commit reaches the server without delay.
fn deliver_reply(t: &Trial, i: usize, lent: &mut Lent) -> Moved
    requires { (i < client_count) × (get_or t.now.lines.lengths i 0 ≤ invoke_room) }
    ensures { move_of result lent.new
        ≡ reply_move (replica_of t.now i) t.now.server t.now.lines i lent.old }
{
    let at = i * trial_core::INVOKE_ROOM;
    let end = at + t.lines.lengths[i] as usize;
    let mut out = [0u8; message::COMMIT_LENGTH];
    let q = client::receive(t.replica(i), &lent.replies[at..end], &mut out);
    let said = trial_outcome::told_said(q.outcome);
    if trial_outcome::is_success(q.outcome) {
        Moved {
            replica: q.replica,
            server: trial_commit::commit(t.server, i, &out, &mut lent.log),
            lines: trial_queue::without_reply(t.lines, i),
            said,
        }
    } else {
        Moved {
            replica: q.replica,
            server: t.server,
            lines: t.lines,
            said,
        }
    }
}

// Client `i` + 1 takes the head of its line.
pub fn deliver(t: &Trial, i: usize, lent: &mut Lent) -> Moved
    requires { i < client_count }
    ensures { move_of result lent.new
        ≡ deliver_move (replica_of t.now i) t.now.server t.now.lines i lent.old }
{
    if trial_queue::reply_first(&t.lines, i) {
        deliver_reply(t, i, lent)
    } else if trial_queue::broadcast_first(&t.lines, i, t.server.passed) {
        trial_broadcast::deliver_broadcast(t, i, &lent.log)
    } else {
        Moved {
            replica: t.replica(i),
            server: t.server,
            lines: t.lines,
            said: LineWord::Empty,
        }
    }
}
