// Check 8, and the checks that every call on a replica asks first. Definitions: specs/Replica.antt of replica.
#![tactic(auto)]

ghost use Rattle.std.specs.Prelude.{◌≡◌};
ghost use Rattle.checks.specs.Checks.{first_no};
ghost use Rattle.replica.specs.Outcome.{no_of};
ghost use Rattle.replica.specs.Replica.{numbers_ok, arrays_ok, in_range, ready_checks};

use replica::{Refusal, Replica, Stop};

fn numbers_ok(r: &Replica) -> bool
    ensures { result ≡ numbers_ok r.now }
{
    let last = r.confirmed as u64 + r.held as u64;
    (1 <= r.number)
        & (r.number <= message::CLIENTS)
        & (r.count <= operation::MAX_COUNT)
        & (r.confirmed <= message::MAX_SEQ)
        & (r.held as usize <= operation::MAX_PENDING)
        & (last <= message::MAX_SEQ as u64)
        & ((r.halt == 0) | replica::is_halt(r.halt))
}

fn arrays_ok(r: &Replica) -> bool
    ensures { result ≡ arrays_ok r.now }
{
    let held = r.held as usize;
    slices::each_most(&r.statuses, 2)
        & slices::zero_from(&r.statuses, held)
        & slices::zero_from(&r.chain, (held + 1) * message::DIGEST_LENGTH)
        & operation::temps_ok(r.cells.temps)
}

// Check 8: whether each field is in range.
pub fn in_range(r: &Replica) -> bool
    ensures { result ≡ in_range r.now }
{
    numbers_ok(r) & (replica::no_current(r.current) | operation::op_ok(r.current)) & arrays_ok(r)
}

// Checks 8 and 3, which every call on a replica asks first.
pub fn ready(r: &Replica) -> Result<(), Stop>
    ensures { no_of result ≡ first_no 0 (ready_checks r.now) }
{
    checks::ask(in_range(r), Refusal::Range)?;
    checks::ask(r.halt == 0, Refusal::HaltMark)?;
    Ok(())
}
