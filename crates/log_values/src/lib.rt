// The three values of a line of the meters' log (document 02, Q-5). Definitions: specs/Values.antt. An inner step of `meter_log`: the line
// `s` is cut already.
#![tactic(auto)]

ghost use Rattle.std.specs.Prelude.{◌≡◌};
ghost use Rattle.log_values.specs.Values.{values_of};

use log_columns::Columns;

// How many fields a sound line has, and the three values, each where the field is one.
#[derive(Clone, Copy)]
pub struct Values {
    pub fields: usize,
    pub cell: Option<u32>,
    pub flow: Option<u32>,
    pub last: Option<u8>,
}

// The values of the line `s` under these columns, in one walk from separator to separator, where it is sound.
pub fn values_in(c: Columns, s: &[u8]) -> Option<Values>
    ensures { result ≡ values_of c s.now }
{
    let mut a = 0;
    let mut n = 0;
    let mut cell = None;
    let mut flow = None;
    let mut last = None;
    loop {
        let f = log_quotes::field_end(s, a);
        let e = f.end;
        if !f.sound {
            return None;
        }
        cell = log_number::number_at(n == c.cell, &s[a..e], cell);
        flow = log_number::number_at(n == c.flow, &s[a..e], flow);
        last = log_number::temperature_at(n == c.temp, &s[a..e], last);
        if e == s.len() {
            return Some(Values {
                fields: n + 1,
                cell,
                flow,
                last,
            });
        }
        a = e + 1;
        n += 1;
    }
}
