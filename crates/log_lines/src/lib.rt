// Lines of a text (document 02, Q-5). Definitions: specs/Lines.antt. A `text` is cut at its first line feed. A line is a part of
// what the caller lent: nothing is copied.
#![tactic(auto)]

ghost use Rattle.std.specs.Prelude.{◌≡◌};
ghost use Rattle.log_lines.specs.Lines.{less_return, first_line, next_line};

// `s` without a carriage return at its end.
#[tactic(auto, using(crate::proofs::Lines::return_steps))]
pub fn less_return<'a>(s: &'a [u8]) -> &'a [u8]
    ensures { result.now ≡ less_return s.now }
{
    match s.split_last() {
        Some((&last, rest)) if last == b'\r' => rest,
        _ => s,
    }
}

// The line at the front of `text`.
pub fn line<'a>(text: &'a [u8]) -> &'a [u8]
    ensures { result.now ≡ first_line text.now }
{
    let e = text::find(text, 0, b'\n');
    if e == text.len() {
        return text;
    }
    less_return(&text[..e])
}

// Where the next line begins: the length where there is none.
pub fn next_line(text: &[u8]) -> usize
    ensures { result ≡ next_line text.now }
{
    let e = text::find(text, 0, b'\n');
    if e == text.len() { e } else { e + 1 }
}
