// Lines of a log told into a buffer. Definitions: specs/Lines.antt.
#![tactic(auto)]

ghost use Rattle.std.specs.Prelude.{◌+◌, ◌<◌, ◌^◌, length};
ghost use Rattle.meter_log_lines.specs.Lines.{Tells};

use meter_log_told::Log;

// After some lines: the log, how many lines there were and how many bytes they have, and how many bytes were written.
#[derive(Clone, Copy)]
pub struct TextTold {
    pub log: Log,
    pub count: u64,
    pub used: usize,
    pub filled: usize,
}

// Tells the whole lines of `text`, the first as line `number` + 1, until none is left or `out` has less room than a line may need.
pub fn tell_lines(log: Log, number: u64, text: &[u8], out: &mut [u8]) -> TextTold
    requires { number + length text.now < 2 ^ 64 }
    ensures { Tells log number text.now out.old result out.new }
{
    let room = out.len();
    let mut g = log;
    let mut count: u64 = 0;
    let mut at = 0;
    let mut filled = 0;
    while 64 <= room - filled {
        let end = text::find(text, at, b'\n');
        if end == text.len() {
            return TextTold {
                log: g,
                count,
                used: at,
                filled,
            };
        }
        let s = meter_log_told::tell_whole(g, &text[at..end]);
        let next = s.log;
        g = next;
        let told = s.told;
        filled = meter_log_put::put_told(out, filled, number + count + 1, told);
        count += 1;
        at = end + 1;
    }
    TextTold {
        log: g,
        count,
        used: at,
        filled,
    }
}
