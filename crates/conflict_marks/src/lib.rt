// Rows of 256 marks, one for each value of a cell, and what an operation does to them. The conflict test's inner steps.
#![tactic(auto)]

ghost use Rattle.std.specs.Prelude.{◌≡◌, ℕ, ◌+◌, ◌<◌, ◌≤◌, true, ◌↔◌, length};
ghost use Rattle.conflict_marks.specs.Marks.{Has, Blank, Laid, Joined, moved_from, SameSpan};

use operation::Operation;

// Lays 256 marks out in the middle of 768 places; those below and above stay unmarked. So the marks of the values
// below x are those of the 256 places from x on, those from x on are those of the 256 places from 256 + x on, and
// marks that move by a are those of the 256 places from 256 - a, or 256 + a, on: each a loop of one fixed length.
// (Each mark is joined with an unmarked place: a mere copy is compiled to a library call that reads the row in wider
// pieces than it was just written in, and waits for them.)
pub fn lay_out(wide: &mut [bool; 768], marks: &[bool; 256])
    requires { (length marks.now ≡ 256) × Blank wide.old }
    ensures { Laid marks.now wide.new }
{
    for v in 0..256 {
        wide[v + 256] = marks[v] | wide[v];
    }
}

// Whether one of the 256 places from `at` on is marked.
pub fn any_marked(wide: &[bool; 768], at: usize) -> bool
    requires { at ≤ 512 }
    ensures { (result ≡ true) ↔ ((k : ℕ) × (k < 256) × Has wide.now (at + k)) }
{
    let mut found = false;
    for k in 0..256 {
        found |= wide[at + k];
    }
    found
}

// Adds the marks of the 256 places from `at` on.
pub fn merge(into: &mut [bool; 256], wide: &[bool; 768], at: usize)
    requires { (at ≤ 512) × (length into.old ≡ 256) }
    ensures { Joined 256 at wide.now into.old into.new }
{
    for v in 0..256 {
        into[v] |= wide[at + v];
    }
}

// The place from which the operation moves a mark to 0; 256, where it moves none. (By numbers, as in `same_span`, for the
// speed of the test.)
pub fn moved_from(e: Operation, moves: bool) -> usize
    ensures { (result ≤ 512) × (result ≡ moved_from e «moves») }
{
    let a = e.amount as usize;
    if moves {
        let adds = e.kind == 1;
        if adds {
            return 256 - a;
        }
        if e.kind == 2 {
            return 256 + a;
        }
    }
    256
}

// Values from `lo` up to `hi`.
#[derive(Clone, Copy)]
pub struct Span {
    pub lo: usize,
    pub hi: usize,
}

// The values whose response is that of u. Of an add or take that succeeds at u: those where it does; of one that fails:
// only u, which the response tells. Of a read: only u; of every other kind: all.
pub fn same_span(e: Operation, u: u8) -> Span
    ensures { SameSpan e u result.lo result.hi }
{
    let a = e.amount as usize;
    let v = u as usize;
    let only = Span { lo: v, hi: v + 1 };
    if e.kind == 1 {
        if v + a <= 255 {
            return Span { lo: 0, hi: 256 - a };
        }
        return only;
    }
    if e.kind == 2 {
        if a <= v {
            return Span { lo: a, hi: 256 };
        }
        return only;
    }
    let reads = e.kind == 3;
    if reads {
        return only;
    }
    Span { lo: 0, hi: 256 }
}
