// Invoking an operation, once it is checked: the operation, the state after it, the `IN` and the call. Definitions: specs/Invoke.antt of client_invoke.
#![tactic(auto)]

ghost use Rattle.std.specs.Prelude.{◌≡◌, ◌≤◌, ◌++◌, length, drop};
ghost use Rattle.message.specs.Layout.{client_count, invoke_length};
ghost use Rattle.replica.specs.Replica.{after_of, over};
ghost use Rattle.client_invoke.specs.Invoke.{invoked_replica, invoke_message, invoke_step};

use message::Item;
use operation::Operation;
use replica::{Event, Outcome, Replica, Stepped};

fn invoked_replica(r: Replica, e: Operation) -> Replica
    ensures { result ≡ invoked_replica r e }
{
    Replica {
        count: e.count,
        current: e,
        ..r
    }
}

// Writes the invoke of an operation.
fn write_own_invoke(r: &Replica, e: Operation, out: &mut [u8])
    requires { (1 ≤ r.now.number) × (r.now.number ≤ client_count) × (invoke_length ≤ length out.old) }
    ensures { out.new ≡ invoke_message r.now e ++ drop invoke_length out.old }
{
    let tag = verify::invoke_tag(&r.keys, e, r.number);
    message_write::write_invoke(
        out,
        Item {
            op: e,
            author: r.number,
            tag,
        },
    );
}

// Invokes an operation (document 01: making an entry).
pub fn invoke(r: Replica, kind: u8, cell: u8, amount: u8, last: u8, out: &mut [u8]) -> Stepped
    ensures { (after_of result ≡ (invoke_step r kind cell amount last (length out.old)).after)
        × (out.new ≡ over (invoke_step r kind cell amount last (length out.old)).wrote out.old) }
{
    if let Err(why) = client_invoke::invoke_check(&r, kind, cell, amount, last, out.len()) {
        return replica::stopped(r, why);
    }
    let e = Operation {
        count: r.count + 1,
        kind,
        cell,
        amount,
        last,
    };
    write_own_invoke(&r, e, out);
    Stepped {
        replica: invoked_replica(r, e),
        outcome: Outcome::Success(Event::Invoked(e.count)),
    }
}
