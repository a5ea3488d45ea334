// The entry that a line of the meters' log becomes (document 02, Q-5). Definitions: specs/Entry.antt. An inner step of `meter_log`.
#![tactic(auto)]

ghost use Rattle.std.specs.Prelude.{◌≡◌};
ghost use Rattle.log_entry.specs.Entry.{entry};

use operation::Operation;

// The operation with these three values, where cell and flow are in their ranges (a temperature's byte is): of kind 5, its count left to
// `invoke` and 0 here.
#[tactic(auto, using(crate::proofs::Laws::entry_steps))]
pub fn entry_of(cell: u32, flow: u32, last: u8) -> Option<Operation>
    ensures { result ≡ entry cell flow last }
{
    if (cell <= 15) & (flow <= 255) {
        Some(Operation {
            count: 0,
            kind: 5,
            cell: cell as u8,
            amount: flow as u8,
            last,
        })
    } else {
        None
    }
}
