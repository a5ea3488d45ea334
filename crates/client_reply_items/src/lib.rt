// All the checks of a reply, in their order. Definitions: specs/ReplyChecks.antt of client_reply_check.
#![tactic(auto)]

ghost use Rattle.std.specs.Prelude.{◌≡◌, ◌+◌, ◌*◌, ◌≤◌, length, Ok};
ghost use Rattle.operation.specs.Operation.{max_pending};
ghost use Rattle.message.specs.Layout.{client_count, max_seq, item_length, reply_head};
ghost use Rattle.message.specs.Message.{reply_count};
ghost use Rattle.checks.specs.Checks.{first_no};
ghost use Rattle.hmac.specs.declared.Keyed.{Keyed};
ghost use Rattle.replica.specs.Outcome.{no_of};
ghost use Rattle.client_reply_check.specs.ReplyChecks.{items_checks, last_ok, reply_form_checks, reply_no};
ghost use Rattle.key_table.specs.KeyTable.{StateOf};

use hmac::Keyed;
use key_table::KeyTable;
use replica::{Halt, Refusal, Replica, Stop};

fn form_check(r: &Replica, m: &[u8], room: usize) -> Result<(), Stop>
    ensures { no_of result ≡ first_no 0 (reply_form_checks r.now m.now room) }
{
    replica_range::ready(r)?;
    checks::ask(message::is_reply(m), Halt::Form)?;
    checks::ask(message::COMMIT_LENGTH <= room, Refusal::Room)?;
    Ok(())
}

// The checks of the `n` items, in their order; what the client's own tags start from where none has a no.
fn items_check(r: &Replica, m: &[u8], n: usize) -> Result<Keyed, Stop>
    requires { (n ≡ reply_count m.now) × (n ≤ max_pending) × (r.now.confirmed ≤ max_seq) × (1 ≤ r.now.number) × (r.now.number ≤ client_count)
        × (reply_head + n * item_length ≤ length m.now) }
    ensures { (no_of result ≡ first_no 0 (items_checks r.now m.now n))
        × ((own : Keyed) → result ≡ Ok own → StateOf r.now.keys r.now.number own) }
{
    let mut table = KeyTable::none();
    for k in 0..n {
        let i = message::item_of(m, k);
        client_reply_check::item_check(r, &mut table, n, k, i)?;
    }
    Ok(table.state_of(&r.keys, r.number))
}

fn last_ok(r: &Replica, m: &[u8], n: usize) -> bool
    requires { (n ≡ reply_count m.now) × (reply_head + n * item_length ≤ length m.now) }
    ensures { result ≡ last_ok r.now m.now }
{
    if n == 0 {
        return false;
    }
    let i = message::item_of(m, n - 1);
    operation::same_op(i.op, r.current) & (i.author == r.number)
}

// All the checks of a reply, in their order; what the client's own tags start from where none has a no.
pub fn reply_check(r: &Replica, m: &[u8], room: usize) -> Result<Keyed, Stop>
    ensures { (no_of result ≡ reply_no r.now m.now room)
        × ((own : Keyed) → result ≡ Ok own → StateOf r.now.keys r.now.number own) }
{
    form_check(r, m, room)?;
    let n = m[message::COUNT_OFFSET] as usize;
    let own = items_check(r, m, n)?;
    checks::ask(last_ok(r, m, n), Halt::Last)?;
    Ok(own)
}
