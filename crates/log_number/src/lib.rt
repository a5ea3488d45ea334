// Numbers and temperatures in the fields of the meters' log (document 02, Q-5). Definitions: specs/Number.antt. An inner step of
// `log_values`: a field's bytes are taken as they are.
#![tactic(auto)]

ghost use Rattle.std.specs.Prelude.{◌≡◌, cond};
ghost use Rattle.text.specs.Text.{within};
ghost use Rattle.log_number.specs.Number.{number, warm, cold, temperature};

// The number of one to three digits in `s`.
#[tactic(auto, using(crate::proofs::Laws::number_steps))]
fn number_in(s: &[u8]) -> Option<u32>
    ensures { result ≡ within 999 (number s.now) }
{
    if s.len() <= 3 {
        text::number(s, 999)
    } else {
        None
    }
}

// The number where it is at most 85, and the byte of its negative where it is at most 40.
#[tactic(auto, using(crate::proofs::Laws::warm_steps))]
fn warm_of(n: u32) -> Option<u8>
    ensures { result ≡ within 255 (warm n) }
{
    if n <= 85 { Some(n as u8) } else { None }
}

#[tactic(auto, using(crate::proofs::Laws::warm_steps))]
fn cold_of(n: u32) -> Option<u8>
    ensures { result ≡ within 255 (cold n) }
{
    if n <= 40 {
        Some((n as u8).wrapping_neg())
    } else {
        None
    }
}

// The temperature in `s` as a byte.
#[tactic(auto, using(crate::proofs::Laws::temperature_steps))]
fn temperature_in(s: &[u8]) -> Option<u8>
    ensures { result ≡ within 255 (temperature s.now) }
{
    match s.split_first() {
        Some((&first, digits)) if first == b'-' => cold_of(number_in(digits)?),
        _ => warm_of(number_in(s)?),
    }
}

// The number in `f` where it is the field looked for, else the value before it.
pub fn number_at(found: bool, f: &[u8], before: Option<u32>) -> Option<u32>
    ensures { result ≡ cond found (within 999 (number f.now)) before }
{
    if found { number_in(f) } else { before }
}

// The same of a temperature.
pub fn temperature_at(found: bool, f: &[u8], before: Option<u8>) -> Option<u8>
    ensures { result ≡ cond found (within 255 (temperature f.now)) before }
{
    if found { temperature_in(f) } else { before }
}
