// The comparison of tags for a C program that times it (bench/tags.sh), and the one with an early exit beside it.
#![tactic(auto)]

ghost use Rattle.std.specs.Prelude.{◌≡◌};
ghost use Rattle.slices.specs.Bytes.{same};
ghost use Rattle.tag_compare.specs.Difference.{different_bits};

// The differences of two tags, gathered: zero exactly if they are equal.
#[unsafe(no_mangle)]
pub extern "C" fn rattle_different_bits(s: &[u8; 32], t: &[u8; 32]) -> u8
    ensures { result ≡ different_bits s.now t.now }
{
    tag_compare::different_bits(*s, *t)
}

// Whether two tags are equal, by a comparison that ends early at a difference: what chain values are compared with.
#[unsafe(no_mangle)]
pub extern "C" fn rattle_equal(s: &[u8; 32], t: &[u8; 32]) -> bool
    ensures { result ≡ same s.now t.now }
{
    slices::equal(s, t)
}
