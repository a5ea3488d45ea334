// The end of SHA-256 (FIPS 180-4, section 6.2.2): the hash value as bytes.
#![tactic(auto)]

ghost use Rattle.std.specs.Prelude.{◌≡◌};
ghost use Rattle.sha256_bytes.specs.Bytes.{bytes_of};

use sha256_core::State;

// The eight words as bytes.
#[tactic(auto, unfolding(crate::specs::Bytes::bytes_of, slices::specs::Bytes::big_endian))]
pub fn to_bytes(s: State) -> [u8; 32]
    ensures { result ≡ bytes_of s }
{
    let words = [
        s.a.to_be_bytes(),
        s.b.to_be_bytes(),
        s.c.to_be_bytes(),
        s.d.to_be_bytes(),
        s.e.to_be_bytes(),
        s.f.to_be_bytes(),
        s.g.to_be_bytes(),
        s.h.to_be_bytes(),
    ];
    let mut b = [0; 32];
    b.copy_from_slice(words.as_flattened());
    b
}
