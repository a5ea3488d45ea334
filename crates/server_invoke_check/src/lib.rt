// The checks of an invoke: 32, 33, 34 and 7. Definitions: specs/Server.antt of server.
#![tactic(auto)]

ghost use Rattle.std.specs.Prelude.{◌≡◌, ◌+◌, ◌-◌, ◌≤◌, eqb};
ghost use Rattle.message.specs.Layout.{client_count, max_seq};
ghost use Rattle.checks.specs.Checks.{first_no};
ghost use Rattle.server.specs.Server.{no_of, placing_checks};

use message::Item;
use server::{Server, ServerRefusal};

// Whether a count is one above the last.
fn is_next(count: u32, last: u32) -> bool
    ensures { result ≡ eqb count (last + 1) }
{
    last.checked_add(1) == Some(count)
}

// The checks, in their order.
pub fn placing_check(s: &Server, i: Item, room: usize) -> Result<(), ServerRefusal>
    requires { (s.now.passed ≤ s.now.placed) × (s.now.placed ≤ max_seq) × (1 ≤ i.author) × (i.author ≤ client_count) }
    ensures { no_of result ≡ first_no 0 (placing_checks s.now i room) }
{
    let last = s.counts[(i.author - 1) as usize];
    let waiting = (s.placed - s.passed) as usize;
    let reply = message::REPLY_HEAD + (waiting + 1) * message::ITEM_LENGTH;
    checks::ask(is_next(i.op.count, last), ServerRefusal::Count)?;
    checks::ask(waiting < operation::MAX_PENDING, ServerRefusal::Pending)?;
    checks::ask(s.placed < message::MAX_SEQ, ServerRefusal::Full)?;
    checks::ask(reply <= room, ServerRefusal::Room)
}
