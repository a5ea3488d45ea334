// The checks of an invoke. Definitions of invoking: specs/Invoke.antt.
#![tactic(auto)]

ghost use Rattle.std.specs.Prelude.{◌≡◌};
ghost use Rattle.replica.specs.Outcome.{no_of};
ghost use Rattle.client_invoke.specs.Invoke.{invoke_no};

use replica::{Refusal, Replica, Stop};

// The checks of an invoke, in their order.
#[tactic(auto, unfolding(crate::specs::Invoke::invoke_no))]
pub fn invoke_check(
    r: &Replica,
    kind: u8,
    cell: u8,
    amount: u8,
    last: u8,
    room: usize,
) -> Result<(), Stop>
    ensures { no_of result ≡ invoke_no r.now kind cell amount last room }
{
    replica_range::ready(r)?;
    checks::ask(replica::no_current(r.current), Refusal::Current)?;
    checks::ask(
        operation::is_allowed(kind, cell, amount, last),
        Refusal::Forbidden,
    )?;
    checks::ask(r.count < operation::MAX_COUNT, Refusal::CountFull)?;
    checks::ask(message::INVOKE_LENGTH <= room, Refusal::Room)?;
    Ok(())
}
