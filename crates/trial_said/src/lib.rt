// What a line of input gives, as a word with its data (document 01, "Cases"). Definitions: specs/Word.antt.
#![tactic(auto)]

ghost use Rattle.std.specs.Prelude.{◌≡◌, ◌++◌, ◌+◌, ◌≤◌, length};
ghost use Rattle.slices.specs.Bytes.{put};
ghost use Rattle.text_put.specs.Datum.{datum};
ghost use Rattle.trial_said.specs.Word.{word_of, word_bytes, answer as answer_word};

use operation::Response;

// What a line of input gives.
#[derive(Clone, Copy)]
pub enum LineWord {
    Placed(u32),
    Answer { place: u32, answer: Response },
    Aside(u32),
    Confirm { place: u32, status: u8 },
    Empty,
    No(u8),
    Halt(u8),
    Bad,
    Full,
}

// ---- with no heap, each function writes into the caller's buffer from `at` on, and answers the place after it

// A word with one number.
fn put_one(out: &mut [u8], at: usize, s: &[u8], n: u32) -> usize
    requires { at + length s.now + 11 ≤ length out.old }
    ensures { (result ≡ at + length (s.now ++ datum n))
        × (out.new ≡ put out.old at (s.now ++ datum n))
        × (result ≤ at + length s.now + 11) }
{
    let i = text_put::put_bytes(out, at, s);
    text_put::put_datum(out, i, n)
}

// A word with two numbers.
fn put_two(out: &mut [u8], at: usize, s: &[u8], m: u32, n: u32) -> usize
    requires { at + length s.now + 22 ≤ length out.old }
    ensures { (result ≡ at + length (s.now ++ datum m ++ datum n))
        × (out.new ≡ put out.old at (s.now ++ datum m ++ datum n))
        × (result ≤ at + length s.now + 22) }
{
    let i = put_one(out, at, s, m);
    text_put::put_datum(out, i, n)
}

// An answer with its place.
fn put_answer(out: &mut [u8], at: usize, place: u32, answer: Response) -> usize
    requires { at + 29 ≤ length out.old }
    ensures { (result ≡ at + length (word_bytes (answer_word place answer)))
        × (out.new ≡ put out.old at (word_bytes (answer_word place answer)))
        × (result ≤ at + 29) }
{
    let i = put_one(out, at, b"answer", place);
    text_put::put_signed(out, i, answer)
}

// The word and its data. 29 bytes are enough.
pub fn put_said(out: &mut [u8], at: usize, said: LineWord) -> usize
    requires { at + 29 ≤ length out.old }
    ensures { (result ≡ at + length (word_bytes (word_of said)))
        × (out.new ≡ put out.old at (word_bytes (word_of said)))
        × (result ≤ at + 29) }
{
    match said {
        LineWord::Placed(p) => put_one(out, at, b"placed", p),
        LineWord::Answer { place, answer } => put_answer(out, at, place, answer),
        LineWord::Aside(p) => put_one(out, at, b"aside", p),
        LineWord::Confirm { place, status } => put_two(out, at, b"confirm", place, status as u32),
        LineWord::Empty => text_put::put_bytes(out, at, b"empty"),
        LineWord::No(n) => put_one(out, at, b"no", n as u32),
        LineWord::Halt(n) => put_one(out, at, b"halt", n as u32),
        LineWord::Bad => text_put::put_bytes(out, at, b"bad"),
        LineWord::Full => text_put::put_bytes(out, at, b"full"),
    }
}
