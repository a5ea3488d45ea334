// The whole lines of a buffer, answered and printed. What is printed for which line is the contract of `trial_lines::answers`; what is held
// of a line that is not yet whole, and of one that is over_long, that of `trial_bytes::keep`. An inner step of the trial program.
// Definitions: specs/Whole.antt.
#![tactic(auto)]

ghost use Rattle.std.specs.Prelude.{◌+◌, ◌≤◌, ◌<◌, ◌^◌, length};
ghost use Rattle.trial_buffer.specs.Whole.{Whole};

use output::Sent;
use std::io::Write;
use trial_core::{Lent, Trial};

// After the lines of the buffer: the trial, how many lines there were, how many bytes are held that are not yet a line, and what was sent.
#[derive(Clone, Copy)]
pub struct After {
    pub trial: Trial,
    pub number: u64,
    pub held: usize,
    pub sent: Sent,
}

// Answers the whole lines among the first `n` bytes, the first as line `first` + 1, and prints what they give; what stands after them is
// held. `answers` stops where `out` has little room, so it is called until it uses nothing.
pub fn whole_lines<W: Write>(
    writer: &mut W,
    start: Trial,
    first: u64,
    before: Sent,
    n: usize,
    buf: &mut [u8],
    out: &mut [u8],
    lent: &mut Lent,
) -> After
    requires { (n ≤ length buf.old) × (1 < length buf.old) × (64 ≤ length out.old) × (first + n < 2 ^ 64) }
    ensures { Whole start lent.old buf.old first before n
        result.trial lent.new buf.new result.number result.sent result.held }
{
    let mut trial = start;
    let mut number = first;
    let mut sent = before;
    let mut at = 0;
    let mut used = 1;
    while used != 0 {
        let q = trial_lines::answers(trial, number, &buf[at..n], out, lent);
        trial = q.trial;
        number += q.count;
        used = q.used;
        at += used;
        sent = output::send(writer, &out[..q.filled], sent);
    }
    let held = trial_bytes::keep(buf, at, n);
    After {
        trial,
        number,
        held,
        sent,
    }
}
