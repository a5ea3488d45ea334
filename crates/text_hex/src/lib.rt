// Bytes in hexadecimal. Definitions: specs/Hex.antt.
#![tactic(auto)]

ghost use Rattle.std.specs.Prelude.{◌≡◌, ◌+◌, ◌*◌, ◌<◌, ◌≤◌, min, length};
ghost use Rattle.std.proofs.Math.Seq.{paste};
ghost use Rattle.slices.specs.Bytes.{put};
ghost use Rattle.text_hex.specs.Hex.{hex_digit, value_of, hex_of, unhex_of};

#[tactic(auto, unfolding(crate::specs::Hex::hex_digit))]
fn hex_digit(d: u8) -> u8
    requires { d < 16 }
    ensures { result ≡ hex_digit d }
{
    match d {
        0..=9 => b'0' + d,
        _ => b'a' + (d - 10),
    }
}

#[tactic(auto, using(crate::proofs::Pairs::value_steps))]
fn hex_value(c: u8) -> Option<u8>
    ensures { result ≡ value_of c }
{
    match c {
        b'0'..=b'9' => Some(c - b'0'),
        b'a'..=b'f' => Some(c - b'a' + 10),
        _ => None,
    }
}

// Writes bytes in hexadecimal into `out` from `at` on, and answers the place after them.
pub fn hex(out: &mut [u8], at: usize, s: &[u8]) -> usize
    requires { at + 2 * length s.now ≤ length out.old }
    ensures { (result ≡ at + 2 * length s.now) × (out.new ≡ put out.old at (hex_of s.now)) }
{
    let mut p = at;
    for &x in s {
        out[p] = hex_digit(x / 16);
        out[p + 1] = hex_digit(x % 16);
        p += 2;
    }
    p
}

// Puts the bytes that pairs of hexadecimal digits spell at the front of `out`, as many as it has room for, and answers how many.
pub fn unhex(s: &[u8], out: &mut [u8]) -> usize
    ensures { (result ≡ min (length (unhex_of s.now)) (length out.old))
        × (out.new ≡ paste out.old 0 (unhex_of s.now) result) }
{
    let n = out.len().min(s.len() / 2);
    for i in 0..n {
        let Some(a) = hex_value(s[2 * i]) else {
            return i;
        };
        let Some(b) = hex_value(s[2 * i + 1]) else {
            return i;
        };
        out[i] = a * 16 + b;
    }
    n
}
