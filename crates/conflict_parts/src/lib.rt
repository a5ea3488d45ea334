// The conflict test by one part of the operations: what they are to the cells' values, or to their temperatures.
#![tactic(auto)]

ghost use Rattle.std.specs.Prelude.{◌≡◌, ◌≤◌, true, ◌↔◌, length};
ghost use Rattle.operation.specs.Operation.{max_pending};
ghost use Rattle.conflict_cell.specs.Differs.{Differs};
ghost use Rattle.conflict_numbers.specs.Numbers.{changed, answered};
ghost use Rattle.conflict_parts.specs.Parts.{is_temps, has_part, part_of, parts_of};

use conflict_numbers::View;
use operation::{Kind, Operation};

// What operations are to the cells' values, or to their temperatures.
#[derive(Clone, Copy, Debug, PartialEq, Eq)]
pub enum Part {
    Values,
    Temps,
}

impl View for Part {
    ghost test = { λ p. has_part (is_temps p) };

    ghost part = { λ p. part_of (is_temps p) };

    // To temperatures, kind 5 is a set to its last byte, and kind 6 a read, as operations on numbers.
    #[tactic(auto, unfolding(crate::specs::Parts::temp_part))]
    fn part_of(self, e: Operation) -> Option<Operation> {
        match (self, Kind::of(e.kind)) {
            (Part::Values, Some(Kind::ReadTemp)) => None,
            (Part::Values, _) => Some(e),
            (Part::Temps, Some(Kind::SetWithTemp)) => Some(Operation {
                kind: 4,
                amount: e.last,
                last: 0,
                ..e
            }),
            (Part::Temps, Some(Kind::ReadTemp)) => Some(Operation {
                kind: 3,
                amount: 0,
                last: 0,
                ..e
            }),
            (Part::Temps, _) => None,
        }
    }
}

// Whether some interleaving makes an own answer differ, by the values or by the temperatures: these are the numbers.
// Where no own operation is anything to them, or none of the others', none does.
pub fn parts_differ(
    numbers: [u8; operation::CELL_COUNT],
    others: &[Operation],
    own: &[Operation],
    part: Part,
) -> bool
    requires { (length others.now ≤ max_pending) × (length own.now ≤ max_pending) }
    ensures { (result ≡ true) ↔ Differs changed answered numbers numbers (parts_of (is_temps part) others.now) (parts_of (is_temps part) own.now) }
{
    if conflict_numbers::count(own, part) == 0 {
        return false;
    }
    if conflict_numbers::count(others, part) == 0 {
        return false;
    }
    let theirs = conflict_numbers::gather(others, part);
    let mine = conflict_numbers::gather(own, part);
    conflict_numbers::differs_on(numbers, theirs.as_slice(), mine.as_slice())
}
