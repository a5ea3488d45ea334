// A name among the fields of a line (document 02, Q-5). Definitions: specs/Names.antt. An inner step of `log_columns`: the line `s` is cut
// already and is taken as it is, sound or not (of an unsound line all from its first unsound field on is the last field). The caller
// asks for soundness beside it. A walk goes from separator to separator, by no step of one: a `loop`, and no `for` over an index.
#![tactic(auto)]

ghost use Rattle.std.specs.Prelude.{◌≡◌, cond};
ghost use Rattle.slices.specs.Bytes.{same};
ghost use Rattle.log_quotes.specs.Quotes.{fields};
ghost use Rattle.log_names.specs.Names.{times, column};

// 1 where the two hold the same bytes, else 0.
fn hit(s: &[u8], t: &[u8]) -> usize
    ensures { result ≡ cond (same s.now t.now) 1 0 }
{
    if slices::equal(s, t) { 1 } else { 0 }
}

// How many fields of the line `s` are `name`.
pub fn times_in(s: &[u8], name: &[u8]) -> usize
    ensures { result ≡ times name.now (fields s.now) }
{
    let mut a = 0;
    let mut n = 0;
    loop {
        let f = log_quotes::field_end(s, a);
        let e = f.end;
        n += hit(&s[a..e], name);
        if e == s.len() {
            return n;
        }
        a = e + 1;
    }
}

// The first field of the line `s` that is `name`.
pub fn column_in(s: &[u8], name: &[u8]) -> usize
    ensures { result ≡ column name.now (fields s.now) }
{
    let mut a = 0;
    let mut k = 0;
    loop {
        let f = log_quotes::field_end(s, a);
        let e = f.end;
        if slices::equal(&s[a..e], name) {
            return k;
        }
        if e == s.len() {
            return k + 1;
        }
        a = e + 1;
        k += 1;
    }
}
