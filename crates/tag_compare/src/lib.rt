// Two tags compared in the same steps, whatever their bytes are (bench/tags.sh). Definition: specs/Difference.antt.
#![tactic(auto)]

ghost use Rattle.std.specs.Prelude.{◌≡◌};
ghost use Rattle.tag_compare.specs.Difference.{different_bits};

// The bits in which some byte of `s` differs from that of `t`: every pair is read, and none is tested. Zero exactly if the tags are equal
// (`zero_exactly`, proofs/Laws.antt). By value: so the loop's proof has both lengths.
#[tactic(auto, using(crate::proofs::Laws::gather_none, crate::proofs::Laws::gather_more, crate::proofs::Laws::gather_done))]
pub fn different_bits(s: [u8; 32], t: [u8; 32]) -> u8
    ensures { result ≡ different_bits s t }
{
    let mut bits = 0;
    for i in 0..32 {
        bits |= s[i] ^ t[i];
    }
    bits
}
