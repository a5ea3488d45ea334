// Text in bytes: the place of a byte, and decimal numbers. Definitions: specs/Text.antt.
#![tactic(auto)]

ghost use Rattle.std.specs.Prelude.{◌≡◌, ◌+◌, ◌≤◌, length, drop};
ghost use Rattle.slices.specs.Bytes.{put};
ghost use Rattle.text.specs.Text.{place_of, number_within, decimal_of};

// The place of the first `x` from `from` on: the length where there is none, `from` where that is past the end.
#[tactic(auto, using(crate::proofs::Laws::place_steps))]
pub fn find(s: &[u8], from: usize, x: u8) -> usize
    ensures { result ≡ from + place_of x (drop from s.now) }
{
    for i in from..s.len() {
        if s[i] == x {
            return i;
        }
    }
    s.len().max(from)
}

// The number that the bytes spell, where they spell one and it is at most `max`.
#[tactic(auto, using(crate::proofs::Laws::number_steps))]
pub fn number(s: &[u8], max: u32) -> Option<u32>
    ensures { result ≡ number_within max s.now }
{
    if s.is_empty() {
        return None;
    }
    let mut v: u32 = 0;
    for &d in s {
        if !d.is_ascii_digit() {
            return None;
        }
        v = v.checked_mul(10)?.checked_add(u32::from(d - b'0'))?;
    }
    if v <= max { Some(v) } else { None }
}

// Writes a number into `out` from `at` on, and answers the place after it.
#[tactic(auto, using(crate::proofs::Laws::digit_steps))]
pub fn decimal(out: &mut [u8], at: usize, n: u64) -> usize
    requires { at + length (decimal_of n) ≤ length out.old }
    ensures { (result ≡ at + length (decimal_of n)) × (out.new ≡ put out.old at (decimal_of n)) }
{
    let p = if 9 < n { decimal(out, at, n / 10) } else { at };
    out[p] = 48 + (n % 10) as u8;
    p + 1
}
