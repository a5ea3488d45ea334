// The fields of a line (document 02, Q-5). Definitions: specs/Places.antt. A `text` is cut at its first line feed; a line `s` is one that
// is cut already. A field is a part of what the caller lent: nothing is copied. A walk goes from separator to separator, by no step of one:
// a `loop`, and no `for` over an index.
#![tactic(auto)]

ghost use Rattle.std.specs.Prelude.{◌≡◌};
ghost use Rattle.log_lines.specs.Lines.{first_line};
ghost use Rattle.log_quotes.specs.Quotes.{field_at, field_count};
ghost use Rattle.log_fields.specs.Places.{field_start, part_in, part_of, StartsAt, From};

// How many fields the line `s` has, 0 where it is unsound.
pub fn count_in(s: &[u8]) -> usize
    ensures { result ≡ field_count s.now }
{
    let mut a = 0;
    let mut n = 0;
    loop {
        let f = log_quotes::field_end(s, a);
        if !f.sound {
            return 0;
        }
        if f.end == s.len() {
            return n + 1;
        }
        a = f.end + 1;
        n += 1;
    }
}

// Where a part of a text starts and ends.
#[derive(Clone, Copy)]
pub struct Part {
    pub start: usize,
    pub end: usize,
}

// Where field `k` of the line `s` starts, or the line's end where it has none.
fn start_in(s: &[u8], k: usize) -> usize
    ensures { StartsAt s.now k result }
{
    let mut a = 0;
    for _j in 0..k {
        let f = log_quotes::field_end(s, a);
        if f.end == s.len() {
            return f.end;
        }
        a = f.end + 1;
    }
    a
}

// Where field `k` of the line `s` stands, sound or not.
fn part_in(s: &[u8], k: usize) -> Part
    ensures { result ≡ part_in s.now k }
{
    let a = start_in(s, k);
    let f = log_quotes::field_end(s, a);
    Part {
        start: a,
        end: f.end,
    }
}

// Where field `k` of the line at the front of `text` stands: at the line's end if absent, at 0 if the line is unsound.
pub fn field_part(text: &[u8], k: usize) -> Part
    ensures { result ≡ part_of (first_line text.now) k }
{
    let s = log_lines::line(text);
    if count_in(s) == 0 {
        return Part { start: 0, end: 0 };
    }
    part_in(s, k)
}

// Field `k` of the line at the front of `text`, quotes included; empty if absent or the line is unsound. It is the part of `text`
// from where the field starts.
pub fn field<'a>(text: &'a [u8], k: usize) -> &'a [u8]
    ensures bytes { result.now ≡ field_at (first_line text.now) k }
    ensures place { From text.entry (field_start (first_line text.now) k) result }
{
    let p = field_part(text, k);
    let a = p.start;
    let e = p.end;
    &text[a..e]
}
