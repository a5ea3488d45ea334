// Lines of input answered into a buffer. Definitions: specs/Lines.antt.
#![tactic(auto)]

ghost use Rattle.std.specs.Prelude.{◌+◌, ◌≤◌, ◌<◌, ◌^◌, length};
ghost use Rattle.trial_lines.specs.Lines.{Answers};

use trial_core::{Lent, Trial};

// After some lines: the trial, how many lines there were and how many bytes they have, and how many bytes were written.
#[derive(Clone, Copy)]
pub struct Answered {
    pub trial: Trial,
    pub count: u64,
    pub used: usize,
    pub filled: usize,
}

// Answers the lines of `text`, the first as line `number` + 1, until none is left or `out` has less room than a line may need.
pub fn answers(trial: Trial, number: u64, text: &[u8], out: &mut [u8], lent: &mut Lent) -> Answered
    requires { number + length text.now < 2 ^ 64 }
    ensures { Answers trial number lent.old text.now out.old result lent.new out.new }
{
    let room = out.len();
    let mut t = trial;
    let mut count: u64 = 0;
    let mut at = 0;
    let mut filled = 0;
    while 64 <= room - filled {
        let end = text::find(text, at, 10);
        if end == text.len() {
            break;
        }
        let command = trial_parse::parse(&text[at..end]);
        let q = trial_answer::answer(t, number + count + 1, command, out, filled, lent);
        t = q.trial;
        filled = q.filled;
        count += 1;
        at = end + 1;
    }
    Answered {
        trial: t,
        count,
        used: at,
        filled,
    }
}
