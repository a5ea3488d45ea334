// The conflict test. What a conflict is: specs/Conflict.antt.
#![tactic(auto)]

ghost use Rattle.std.specs.Prelude.{◌≡◌, take};
ghost use Rattle.conflict.specs.Conflict.{conflicts};

use conflict_parts::Part;
use operation::{Cells, Operation};

// Whether the first `n` of the others' operations conflict with the first `m` own ones: by the cells' values, or by their
// temperatures. A number above `MAX_PENDING` means all. Where no own operation is about temperatures, the values decide, on
// the lists as they are.
// Public, for every number: by value with its arrays, as its callers have them.
pub fn conflict(
    cells: Cells,
    others: [Operation; operation::MAX_PENDING],
    n: usize,
    own: [Operation; operation::MAX_PENDING],
    m: usize,
) -> bool
    ensures { result ≡ conflicts cells (take n others) (take m own) }
{
    let theirs = &others[..n.min(operation::MAX_PENDING)];
    let mine = &own[..m.min(operation::MAX_PENDING)];
    if conflict_numbers::count(mine, Part::Temps) == 0 {
        return conflict_numbers::differs_on(cells.values, theirs, mine);
    }
    conflict_parts::parts_differ(cells.values, theirs, mine, Part::Values)
        || conflict_parts::parts_differ(cells.temps, theirs, mine, Part::Temps)
}
