// The columns that the first line of the meters' log names (document 02, Q-5). Definitions: specs/Columns.antt. `s` is a line that is
// cut already. An inner step of `meter_log`: `columns_in` asks that the line is sound.
#![tactic(auto)]

ghost use Rattle.std.specs.Prelude.{◌≡◌, true};
ghost use Rattle.log_quotes.specs.Quotes.{sound};
ghost use Rattle.log_columns.specs.Columns.{header_ok, columns_of};

// How many fields a line must have, and where the three values stand.
#[derive(Clone, Copy)]
pub struct Columns {
    pub count: usize,
    pub cell: usize,
    pub flow: usize,
    pub temp: usize,
}

// Whether the first line `s` passes 40.
pub fn header_ok(s: &[u8]) -> bool
    ensures { result ≡ header_ok s.now }
{
    (log_fields::count_in(s) != 0)
        & (log_names::times_in(s, b"cell") == 1)
        & (log_names::times_in(s, b"flow") == 1)
        & (log_names::times_in(s, b"temp") == 1)
}

// Where the sound first line `s` has the three names.
pub fn columns_in(s: &[u8]) -> Columns
    requires { sound s.now ≡ true }
    ensures { result ≡ columns_of s.now }
{
    Columns {
        count: log_fields::count_in(s),
        cell: log_names::column_in(s, b"cell"),
        flow: log_names::column_in(s, b"flow"),
        temp: log_names::column_in(s, b"temp"),
    }
}
