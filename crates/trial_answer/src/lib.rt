// One line of input answered into a buffer. Definition: specs/Answer.antt.
#![tactic(auto)]

ghost use Rattle.std.specs.Prelude.{◌+◌, ◌≤◌, length};
ghost use Rattle.trial_words.specs.Words.{asked};
ghost use Rattle.trial_answer.specs.Answer.{LineAnswered};

use trial_core::{Lent, Trial};
use trial_words::Command;

// After one line: the trial, and the place after what was written.
#[derive(Clone, Copy)]
pub struct Line {
    pub trial: Trial,
    pub filled: usize,
}

// Answers a command, as line `number`, into `out` from `at` on.
pub fn answer(
    trial: Trial,
    number: u64,
    command: Command,
    out: &mut [u8],
    at: usize,
    lent: &mut Lent,
) -> Line
    requires { at + 64 ≤ length out.old }
    ensures { LineAnswered trial number lent.old (asked command) out.old at result lent.new out.new }
{
    let r = trial_step::step(trial, command, lent);
    Line {
        trial: r.trial,
        filled: trial_print::put_line(out, at, number, r.van, r.said),
    }
}
