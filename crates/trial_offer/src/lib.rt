// Offering the invokes of clients to the server (document 01, "Cases": "`IN` and `CO` reach the relay without delay", "offered again …").
// Definitions: specs/Trial.antt of trial_core.
#![tactic(auto)]

ghost use Rattle.std.specs.Prelude.{◌≡◌, cond, ◌+◌, ◌*◌, ◌<◌, get_or, length};
ghost use Rattle.message.specs.Layout.{client_count, item_length, reply_head};
ghost use Rattle.trial_core.specs.Trial.{with_reply, with_refused, offer};
ghost use Rattle.trial_offer.specs.Offers.{offering_of, again_offering, offered_one, offered_to};

use server::Server;
use trial_core::{Lent, Lines};
use trial_said::LineWord;

// The server and the lines after an invoke is offered, and what that prints.
#[derive(Clone, Copy)]
pub struct Offered {
    pub server: Server,
    pub lines: Lines,
    pub said: LineWord,
}

// The server and the lines after the refused invokes are offered again.
#[derive(Clone, Copy)]
pub struct Again {
    pub server: Server,
    pub lines: Lines,
}

// The number of bytes of the reply at `at`.
fn reply_length(replies: &[u8], at: usize) -> u32
    requires { at + 2 < length replies.now }
    ensures { result ≡ reply_head + get_or replies.now (at + 2) 0 * item_length }
{
    message::REPLY_HEAD as u32 + replies[at + 2] as u32 * message::ITEM_LENGTH as u32
}

// The lines after the invoke of client `i` + 1 was offered.
fn offered_lines(l: Lines, i: usize, placed: bool, passed: u32, length: u32) -> Lines
    requires { i < client_count }
    ensures { result ≡ cond placed (with_reply l i passed length) (with_refused l i) }
{
    if placed {
        trial_queue::with_reply(l, i, passed, length)
    } else {
        trial_queue::with_refused(l, i)
    }
}

// The server takes the invoke `m` of client `i` + 1: placed, its reply goes to the client's line; refused, the invoke waits.
pub fn offer(
    s: Server,
    l: Lines,
    i: usize,
    m: &[u8],
    replies: &mut [u8; trial_core::REPLIES_LENGTH],
) -> Offered
    requires { i < client_count }
    ensures { offering_of result replies.new ≡ offer s l i m.now replies.old }
{
    let at = i * trial_core::INVOKE_ROOM;
    let part = &mut replies[at..at + trial_core::INVOKE_ROOM];
    let q = server_receive::receive(s, (i + 1) as u8, m, part);
    let length = reply_length(replies, at);
    let placed = trial_outcome::is_placed(q.outcome);
    Offered {
        server: q.server,
        lines: offered_lines(l, i, placed, q.server.passed, length),
        said: trial_outcome::served_said(q.outcome),
    }
}

// Offers the refused invoke of client `i` + 1, if there is one and the server has a place.
fn offer_one(s: Server, l: Lines, i: usize, lent: &mut Lent) -> Again
    requires { i < client_count }
    ensures { (again_offering result lent.new.replies ≡ offered_one s l i lent.old.replies lent.old.invokes)
        × (lent.new.log ≡ lent.old.log) × (lent.new.invokes ≡ lent.old.invokes) }
{
    if l.refused[i] && trial_room::has_place(&s) {
        let m = lent.invoke_of(i);
        let o = offer(s, l, i, &m, &mut lent.replies);
        Again {
            server: o.server,
            lines: o.lines,
        }
    } else {
        Again {
            server: s,
            lines: l,
        }
    }
}

// Offers the refused invokes again, lowest client first.
pub fn offer_again(s: Server, l: Lines, lent: &mut Lent) -> Again
    ensures { (again_offering result lent.new.replies ≡ offered_to client_count s l lent.old.replies lent.old.invokes)
        × (lent.new.log ≡ lent.old.log) × (lent.new.invokes ≡ lent.old.invokes) }
{
    let mut after = Again {
        server: s,
        lines: l,
    };
    for i in 0..trial_core::CLIENTS {
        after = offer_one(after.server, after.lines, i, lent);
    }
    after
}
