// Rows of marks moved by an operation, and the quick look before the search. Definitions: those of conflict_marks.
#![tactic(auto)]

ghost use Rattle.std.specs.Prelude.{◌≡◌, ℕ, ◌+◌, ◌<◌, ◌≤◌, true, ◌↔◌, length};
ghost use Rattle.operation.specs.Operation.{max_pending};
ghost use Rattle.conflict_marks.specs.Marks.{Has, Blank, is_set, is_read, Ran, Other, marks_at, Widened};

use operation::{Kind, Operation};

// Whether the operation sets its cell. (By numbers, for the speed of the test.)
fn is_set(e: Operation) -> bool
    ensures { result ≡ is_set e }
{
    (e.kind == 4) | (e.kind == 5)
}

// Whether it leaves every value as it is, and only tells a value or a temperature.
fn is_read(e: Operation) -> bool
    ensures { result ≡ is_read e }
{
    matches!(Kind::of(e.kind), Some(Kind::Read | Kind::ReadTemp))
}

// Adds what the operation makes of the marks laid out: a set's amount, if there is any mark; else the marks moved
// alike, so that the one at `at` comes to 0.
pub fn run_into(into: &mut [bool; 256], wide: &[bool; 768], e: Operation, at: usize)
    requires { (at ≤ 512) × (length into.old ≡ 256) }
    ensures { Ran e at wide.now into.old into.new }
{
    if is_set(e) {
        if conflict_marks::any_marked(wide, 256) {
            let a = e.amount as usize;
            into[a] = true;
        }
    } else {
        conflict_marks::merge(into, wide, at);
    }
}

// Whether one of the 256 places from `at` on is marked, where only the middle ones may be: none below them, none above.
fn any_seen(wide: &[bool; 768], at: usize) -> bool
    requires { (at ≤ 512) × Blank wide.now }
    ensures { (result ≡ true) ↔ ((k : ℕ) × (k < 256) × Has wide.now (at + k)) }
{
    if at == 0 {
        return false;
    }
    let none_above = at == 512;
    if none_above {
        return false;
    }
    conflict_marks::any_marked(wide, at)
}

// A quick look: whether a value whose response is not that of u is marked, below the span of those with its response
// or above it.
pub fn any_other(wide: &[bool; 768], e: Operation, u: u8) -> bool
    requires { Blank wide.now }
    ensures { (result ≡ true) ↔ Other e u wide.now }
{
    let same = conflict_marks::same_span(e, u);
    let below = any_seen(wide, same.lo);
    let above = any_seen(wide, same.hi + 256);
    below | above
}

// Adds to each of the first m + 1 what one of the others' operations makes of it, laid out in `wide`. (A read, of a value or of a temperature, makes nothing new.)
pub fn widen(reach: &mut [[bool; 256]; 33], wide: &mut [bool; 768], m: usize, e: Operation)
    requires { (m ≤ max_pending) × (length reach.old ≡ 33) × ((j : ℕ) → j ≤ m → length (marks_at reach.old j) ≡ 256) × Blank wide.old }
    ensures { Widened m e reach.old reach.new × Blank wide.new }
{
    if is_read(e) {
        return;
    }
    let at = conflict_marks::moved_from(e, true);
    for j in 0..m + 1 {
        conflict_marks::lay_out(wide, &reach[j]);
        run_into(&mut reach[j], wide, e, at);
    }
}
