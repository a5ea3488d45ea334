// Bytes and numbers put into a text. Definitions: specs/Datum.antt. With no heap, each function writes into the caller's buffer from `at`
// on, and answers the place after it.
#![tactic(auto)]

ghost use Rattle.std.specs.Prelude.{◌≡◌, ◌+◌, ◌≤◌, length};
ghost use Rattle.slices.specs.Bytes.{put};
ghost use Rattle.text_put.specs.Datum.{datum, signed_datum};

pub fn put_bytes(out: &mut [u8], at: usize, s: &[u8]) -> usize
    requires { at + length s.now ≤ length out.old }
    ensures { (result ≡ at + length s.now) × (out.new ≡ put out.old at s.now) }
{
    slices::copy_to(out, at, s);
    at + s.len()
}

// A number after a space.
pub fn put_datum(out: &mut [u8], at: usize, n: u32) -> usize
    requires { at + 11 ≤ length out.old }
    ensures { (result ≡ at + length (datum n)) × (out.new ≡ put out.old at (datum n)) × (result ≤ at + 11) }
{
    let i = put_bytes(out, at, b" ");
    text::decimal(out, i, n as u64)
}

// A signed number after a space.
pub fn put_signed(out: &mut [u8], at: usize, z: i16) -> usize
    requires { at + 11 ≤ length out.old }
    ensures { (result ≡ at + length (signed_datum z)) × (out.new ≡ put out.old at (signed_datum z)) × (result ≤ at + 11) }
{
    let n = z.unsigned_abs();
    if z < 0 {
        let i = put_bytes(out, at, b" -");
        text::decimal(out, i, n as u64)
    } else {
        put_datum(out, at, n as u32)
    }
}
