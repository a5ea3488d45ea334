// A line of the trial program's output written, with no heap: into the caller's buffer from `at` on. Definition: specs/Line.antt.
#![tactic(auto)]

ghost use Rattle.std.specs.Prelude.{◌≡◌, ◌+◌, ◌≤◌, length};
ghost use Rattle.slices.specs.Bytes.{put};
ghost use Rattle.trial_said.specs.Word.{word_of};
ghost use Rattle.trial_print.specs.Line.{line_bytes};

use trial_said::LineWord;

// Writes the line that a line of input gives. 64 bytes are enough.
pub fn put_line(out: &mut [u8], at: usize, number: u64, van: u8, said: LineWord) -> usize
    requires { at + 64 ≤ length out.old }
    ensures { (result ≡ at + length (line_bytes number van (word_of said)))
        × (out.new ≡ put out.old at (line_bytes number van (word_of said)))
        × (result ≤ at + 64) }
{
    let i = text::decimal(out, at, number);
    let j = text_put::put_datum(out, i, van as u32);
    let k = text_put::put_bytes(out, j, b" ");
    let l = trial_said::put_said(out, k, said);
    text_put::put_bytes(out, l, b"\n")
}
