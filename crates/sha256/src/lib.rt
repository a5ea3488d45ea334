// SHA-256 (FIPS 180-4).
#![tactic(auto)]

ghost use Rattle.std.specs.Prelude.{◌≡◌, List, ◌++◌, ℕ, ◌+◌, ◌/◌, ◌%◌, ◌≤◌, length};
ghost use Rattle.sha256.specs.Sha256.{initial, hash_from, sha256, outcome_no, digest_no, digest_out};
ghost use Rattle.sha256.specs.Inner.{rest_from, after_block};

use sha256_core::State;

// The refusal of a digest or a tag (9): the input, or the tag's key, is over 65,535 bytes.
#[derive(Clone, Copy, Debug, PartialEq, Eq)]
pub struct TooLong;

#[tactic(auto, unfolding(crate::specs::Sha256::initial))]
fn initial_state() -> State
    ensures { result ≡ initial }
{
    State {
        a: 0x6a09_e667,
        b: 0xbb67_ae85,
        c: 0x3c6e_f372,
        d: 0xa54f_f53a,
        e: 0x510e_527f,
        f: 0x9b05_688c,
        g: 0x1f83_d9ab,
        h: 0x5be0_cd19,
    }
}

// The hash value after the whole blocks of m.
fn whole_blocks(s: State, m: &[u8]) -> State
    ensures { result ≡ hash_from s (length m.now / 64) m.now }
{
    let mut q = s;
    for n in 0..m.len() / 64 {
        q = sha256_compress::compress(q, m, 64 * n);
    }
    q
}

// The hash value of a message whose first `before` bytes, in whole blocks, led to s, and whose rest is m.
fn hash_from(s: State, before: usize, m: &[u8]) -> State
    requires { (before % 64 ≡ 0) × (before + length m.now ≤ 65599) }
    ensures { result ≡ rest_from s before m.now }
{
    let n = m.len();
    let q = whole_blocks(s, m);
    let from = n / 64 * 64;
    let b = sha256_pad::last_blocks(&m[from..], before + n);
    let p = sha256_compress::compress(q, &b, 0);
    if n % 64 < 56 {
        p
    } else {
        sha256_compress::compress(p, &b, 64)
    }
}

// Inner form of the digest, for callers that keep to the limit.
pub fn digest_of(m: &[u8]) -> [u8; 32]
    requires { length m.now ≤ 65535 }
    ensures { result ≡ sha256 m.now }
{
    sha256_bytes::to_bytes(hash_from(initial_state(), 0, m))
}

// Inner form: the hash value after one block p.
#[tactic(auto, unfolding(crate::specs::Inner::after_block))]
pub fn after_block(p: &[u8; 64]) -> State
    ensures { result ≡ after_block p.now }
{
    sha256_compress::compress(initial_state(), p, 0)
}

// Inner form: the digest of a block that led to s, then m.
pub fn digest_from(s: State, m: &[u8]) -> [u8; 32]
    requires { length m.now ≤ 65535 }
    ensures { (p : List ℕ) → length p ≡ 64 → s ≡ after_block p → result ≡ sha256 (p ++ m.now) }
{
    sha256_bytes::to_bytes(hash_from(s, 64, m))
}

// The digest of any input: written to `out`, or refused (9) with `out` as it was.
#[tactic(auto, unfolding(crate::specs::Sha256::digest_out))]
pub fn digest(input: &[u8], out: &mut [u8; 32]) -> Result<(), TooLong>
    ensures { (outcome_no result ≡ digest_no input.now) × (out.new ≡ digest_out input.now out.old) }
{
    if 65535 < input.len() {
        return Err(TooLong);
    }
    *out = digest_of(input);
    Ok(())
}
