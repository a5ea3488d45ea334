// The meters' log, read by column name (document 02, Q-5). Definitions: specs/Reading.antt, specs/Told.antt. A `text` is cut at its first
// line feed; a line `s` is one that is cut already.
#![tactic(auto)]

ghost use Rattle.std.specs.Prelude.{◌≡◌};
ghost use Rattle.log_lines.specs.Lines.{first_line};
ghost use Rattle.meter_log.specs.Reading.{refusal_no, header_of, entry_found, read_columns, read_line};
ghost use Rattle.meter_log.specs.Told.{header_told, reading_told, first_told, line_told};

use log_columns::Columns;
use log_values::Values;
use operation::Operation;

// Why a line is refused.
#[derive(Clone, Copy)]
pub enum Refusal {
    Header,
    Fields,
    Number,
}

impl Refusal {
    // The check's number.
    pub fn number(self) -> u8
        ensures { result ≡ refusal_no self }
    {
        match self {
            Refusal::Header => 40,
            Refusal::Fields => 41,
            Refusal::Number => 42,
        }
    }
}

// The operation with these three values, where each is one and in its range.
#[tactic(auto, using(crate::proofs::Laws::entry_steps))]
fn entry_in(v: Values) -> Option<Operation>
    ensures { result ≡ entry_found v.cell v.flow v.last }
{
    log_entry::entry_of(v.cell?, v.flow?, v.last?)
}

// What the line `s` comes to under these columns.
#[tactic(auto, using(crate::proofs::Laws::reading_steps))]
fn read_columns(c: Columns, s: &[u8]) -> Result<Operation, Refusal>
    ensures { result ≡ read_columns c s.now }
{
    let v = log_values::values_in(c, s).ok_or(Refusal::Fields)?;
    if v.fields != c.count {
        return Err(Refusal::Fields);
    }
    entry_in(v).ok_or(Refusal::Number)
}

// What the line `s` comes to as the first: columns, or none, which is refusal 40 of every line under it.
pub fn header_in(s: &[u8]) -> Option<Columns>
    ensures { result ≡ header_of s.now }
{
    if log_columns::header_ok(s) {
        Some(log_columns::columns_in(s))
    } else {
        None
    }
}

// What the line `s` comes to under a first line: an operation of kind 5, whose count is left to `invoke` and is 0 here, or a refusal.
#[tactic(auto, using(crate::proofs::Laws::line_steps))]
pub fn read_in(h: Option<Columns>, s: &[u8]) -> Result<Operation, Refusal>
    ensures { result ≡ read_line h s.now }
{
    let c = h.ok_or(Refusal::Header)?;
    read_columns(c, s)
}

// What the line at the front of `text` comes to as the first.
pub fn read_header(text: &[u8]) -> Option<Columns>
    ensures { header_told result ≡ first_told (first_line text.now) }
{
    header_in(log_lines::line(text))
}

// What the line at the front of `text` comes to under a first line.
pub fn read_line(h: Option<Columns>, text: &[u8]) -> Result<Operation, Refusal>
    ensures { reading_told result ≡ line_told h (first_line text.now) }
{
    read_in(h, log_lines::line(text))
}
