// The end of a field in its line, and whether its quotes are sound (document 02, Q-5). Definitions: specs/Quotes.antt. An inner step:
// it asks that the field starts within the line `s`, which is cut already, and of an unsound field it gives what stands there.
#![tactic(auto)]

ghost use Rattle.std.specs.Prelude.{◌≤◌, length};
ghost use Rattle.log_quotes.specs.Quotes.{start, plain, inside, EndsAt};

// Where a field ends, at its separator or with the line, and whether its quotes are sound. An unsound one is all the rest of the line: it
// has an end too, which callers use, so this is no `Option`.
#[derive(Clone, Copy)]
pub struct FieldEnd {
    pub end: usize,
    pub sound: bool,
}

// The end of an unquoted field from `a` on.
fn plain_end(s: &[u8], a: usize) -> FieldEnd
    requires { a ≤ length s.now }
    ensures { EndsAt plain s.now a result }
{
    for i in a..s.len() {
        if s[i] == b',' {
            return FieldEnd {
                end: i,
                sound: true,
            };
        }
        if s[i] == b'"' {
            return FieldEnd {
                end: s.len(),
                sound: false,
            };
        }
    }
    FieldEnd {
        end: s.len(),
        sound: true,
    }
}

// The end of a quoted field from `a` on, which is inside its quotes.
fn quoted_end(s: &[u8], a: usize) -> FieldEnd
    requires { a ≤ length s.now }
    ensures { EndsAt inside s.now a result }
{
    let mut i = a;
    loop {
        let q = text::find(s, i, b'"');
        if q == s.len() {
            return FieldEnd {
                end: q,
                sound: false,
            };
        }
        let c = q + 1;
        if c == s.len() {
            return FieldEnd {
                end: c,
                sound: true,
            };
        }
        let at_comma = s[c] == b',';
        if at_comma {
            return FieldEnd {
                end: c,
                sound: true,
            };
        }
        if s[c] != b'"' {
            return FieldEnd {
                end: s.len(),
                sound: false,
            };
        }
        i = c + 1;
    }
}

// The end of the field that starts at `a`.
pub fn field_end(s: &[u8], a: usize) -> FieldEnd
    requires { a ≤ length s.now }
    ensures { EndsAt start s.now a result }
{
    if a == s.len() {
        return FieldEnd {
            end: a,
            sound: true,
        };
    }
    if s[a] == b'"' {
        return quoted_end(s, a + 1);
    }
    plain_end(s, a)
}
