// HMAC (RFC 2104) with SHA-256.
#![tactic(auto)]

ghost use Rattle.std.specs.Prelude.{◌≡◌, List, ℕ, ◌≤◌, length};
ghost use Rattle.sha256.specs.Sha256.{outcome_no};
ghost use Rattle.hmac.specs.Hmac.{filled, block_key, xored, hmac, tag_no, tag_out};
ghost use Rattle.hmac.specs.Keyed.{keyed_of};

use sha256::TooLong;
use sha256_core::State;

// The hash values after the key's two blocks, XORed with ipad and with opad: what each tag by the key starts from.
#[derive(Clone, Copy)]
pub struct Keyed {
    pub inner: State,
    pub outer: State,
}

// A key of at most a block, filled up with zeros.
fn fill(key: &[u8]) -> [u8; 64]
    requires { length key.now ≤ 64 }
    ensures { result ≡ filled key.now }
{
    let mut b = [0; 64];
    b[..key.len()].copy_from_slice(key);
    b
}

// The key as a block: a longer one is digested first.
#[tactic(auto, unfolding(crate::specs::Hmac::block_key))]
fn block_key(key: &[u8]) -> [u8; 64]
    requires { length key.now ≤ 65535 }
    ensures { result ≡ block_key key.now }
{
    if key.len() <= 64 {
        fill(key)
    } else {
        fill(&sha256::digest_of(key))
    }
}

// Each byte of a block XORed with x.
fn xor_each(mut b: [u8; 64], x: u8) -> [u8; 64]
    ensures { result ≡ xored x b }
{
    for y in &mut b {
        *y ^= x;
    }
    b
}

// Inner form: the hash values that each tag by a key starts from.
#[tactic(auto, unfolding(crate::specs::Keyed::keyed_of))]
pub fn keyed_of(key: &[u8]) -> Keyed
    requires { length key.now ≤ 65535 }
    ensures { result ≡ keyed_of key.now }
{
    let k = block_key(key);
    let inner = sha256::after_block(&xor_each(k, 0x36));
    let outer = sha256::after_block(&xor_each(k, 0x5c));
    Keyed { inner, outer }
}

// Inner form: the tag by the key that led to these.
pub fn tag_by(k: Keyed, m: &[u8]) -> [u8; 32]
    requires { length m.now ≤ 65535 }
    ensures { (key : List ℕ) → k ≡ keyed_of key → result ≡ hmac key m.now }
{
    sha256::digest_from(k.outer, &sha256::digest_from(k.inner, m))
}

// Inner form of the tag, for callers that keep to the limits.
pub fn tag_of(key: &[u8], m: &[u8]) -> [u8; 32]
    requires { (length key.now ≤ 65535) × (length m.now ≤ 65535) }
    ensures { result ≡ hmac key.now m.now }
{
    tag_by(keyed_of(key), m)
}

// The tag of any input under any key: written to `out`, or refused (9) with `out` as it was.
#[tactic(auto, unfolding(crate::specs::Hmac::tag_out))]
pub fn tag(key: &[u8], input: &[u8], out: &mut [u8; 32]) -> Result<(), TooLong>
    ensures { (outcome_no result ≡ tag_no key.now input.now) × (out.new ≡ tag_out key.now input.now out.old) }
{
    if 65535 < input.len() || 65535 < key.len() {
        return Err(TooLong);
    }
    *out = tag_of(key, input);
    Ok(())
}
