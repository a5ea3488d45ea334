// The conflict test on numbers, one for each cell, be they values or temperatures: cell by cell.
#![tactic(auto)]

ghost use Rattle.std.specs.Prelude.{◌≡◌, ◌≤◌, Bool, true, cond, ◌↔◌, Some, None, length, take};
ghost use Rattle.operation.specs.declared.Operation.{Operation};
ghost use Rattle.operation.specs.Operation.{max_pending, value, value_response};
ghost use Rattle.conflict_cell.specs.Differs.{Differs};
ghost use Rattle.conflict_numbers.specs.Numbers.{changed, answered, parts, is_on, on_cell};

use operation::Operation;

// A way to look at operations: those that are anything to it pass its test, and each has a part that it sees.
pub trait View: Copy {
    ghost test: { Self → Operation → Bool };

    ghost part: { Self → Operation → Operation };

    // What the operation is to it, if anything.
    fn part_of(self, e: Operation) -> Option<Operation>
        ensures { result ≡ cond (test self e) (Some (part self e)) None };
}

// The operations on one cell, as they are.
#[derive(Clone, Copy)]
struct OnCell {
    cell: u8,
}

impl View for OnCell {
    ghost test = { λ v. is_on v.cell };

    ghost part = { λ v e. e };

    fn part_of(self, e: Operation) -> Option<Operation> {
        (e.cell == self.cell).then_some(e)
    }
}

// At most `MAX_PENDING` operations, at the front of an array: no heap.
#[derive(Clone, Copy)]
pub struct Gathered {
    ops: [Operation; operation::MAX_PENDING],
    count: usize,
    ghost fits: { count ≤ max_pending },
}

impl Gathered {
    pub fn as_slice(&self) -> &[Operation]
        ensures items { result.now ≡ take self.now.count self.now.ops }
        ensures fits { length result.now ≤ max_pending }
    {
        &self.ops[..self.count]
    }
}

// How many of the operations are anything to the view. (A sum: a filter would take a branch for each.)
pub fn count<V: View>(ops: &[Operation], view: V) -> usize
    ensures { (result ≡ length (parts (V.test view) (V.part view) ops.now)) × (result ≤ length ops.now) }
{
    let mut n = 0;
    for o in ops {
        n += usize::from(view.part_of(*o).is_some());
    }
    n
}

// What the operations are to the view.
pub fn gather<V: View>(ops: &[Operation], view: V) -> Gathered
    requires { length ops.now ≤ max_pending }
    ensures { take result.count result.ops ≡ parts (V.test view) (V.part view) ops.now }
{
    let mut new = [operation::no_op(); operation::MAX_PENDING];
    let mut count = 0;
    for e in ops {
        if let Some(p) = view.part_of(*e) {
            new[count] = p;
            count += 1;
        }
    }
    Gathered { ops: new, count }
}

// Whether some interleaving makes an own answer on the cell differ, where its number is `start`. A function of its own: it
// pays at its entry for the two arrays.
fn conflict_among(cell: u8, start: u8, others: &[Operation], own: &[Operation]) -> bool
    requires { (length others.now ≤ max_pending) × (length own.now ≤ max_pending) }
    ensures { (result ≡ true) ↔ Differs value value_response start start (on_cell cell others.now) (on_cell cell own.now) }
{
    let view = OnCell { cell };
    let theirs = gather(others, view);
    let mine = gather(own, view);
    conflict_cell::conflict_at(start, theirs.as_slice(), mine.as_slice())
}

// The same, where a cell that no own operation or none of the others' touches is passed over.
fn conflict_on(cell: u8, start: u8, others: &[Operation], own: &[Operation]) -> bool
    requires { (length others.now ≤ max_pending) × (length own.now ≤ max_pending) }
    ensures { (result ≡ true) ↔ Differs value value_response start start (on_cell cell others.now) (on_cell cell own.now) }
{
    let view = OnCell { cell };
    if count(own, view) == 0 {
        return false;
    }
    if count(others, view) == 0 {
        return false;
    }
    conflict_among(cell, start, others, own)
}

// Whether some interleaving makes an own answer differ, on numbers of the cells.
pub fn differs_on(
    numbers: [u8; operation::CELL_COUNT],
    others: &[Operation],
    own: &[Operation],
) -> bool
    requires { (length others.now ≤ max_pending) × (length own.now ≤ max_pending) }
    ensures { (result ≡ true) ↔ Differs changed answered numbers numbers others.now own.now }
{
    for k in 0..operation::CELL_COUNT {
        if conflict_on(k as u8, numbers[k], others, own) {
            return true;
        }
    }
    false
}
