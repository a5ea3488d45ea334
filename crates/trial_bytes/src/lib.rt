// What the trial program holds of its input, as bytes. Definitions: specs/Held.antt.
#![tactic(auto)]

ghost use Rattle.std.specs.Prelude.{◌≡◌, ◌+◌, ◌-◌, ◌≤◌, ◌<◌, length, take};
ghost use Rattle.trial_bytes.specs.Held.{Ends, Keeps};

// At the end of the input: a line feed after the bytes held, where there are any. How many bytes there are then.
pub fn end_line(buf: &mut [u8], held: usize) -> usize
    requires { held < length buf.old }
    ensures { Ends buf.old buf.new held result }
{
    if held == 0 {
        return 0;
    }
    buf[held] = 10;
    held + 1
}

// How many bytes stay held of the first `held`, which are not yet a line. Where they fill the buffer the line is over_long: a NUL byte
// stands for them, and makes the line one of another form, whatever follows.
fn over_long(buf: &mut [u8], held: usize) -> usize
    requires { (held ≤ length buf.old) × (1 < length buf.old) }
    ensures { Keeps buf.old buf.new 0 held result }
{
    if held < buf.len() {
        return held;
    }
    buf[0] = 0;
    1
}

// Keeps the bytes from `from` to `to`, which are not yet a line, at the front: how many are held then.
pub fn keep(buf: &mut [u8], from: usize, to: usize) -> usize
    requires { (from ≤ to) × (to ≤ length buf.old) × (1 < length buf.old) }
    ensures { Keeps buf.old buf.new from (to - from) result }
{
    shifts::to_front(buf, from, to);
    over_long(buf, to - from)
}
