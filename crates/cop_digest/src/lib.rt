// The digest and the tag, for C, C++ and Rust programs to link: include/cop.h declares them. Each says document 01's number, 0 or 9.
#![tactic(auto)]

ghost use Rattle.std.specs.Prelude.{◌≡◌};
ghost use Rattle.sha256.specs.Sha256.{outcome_no, digest_no, digest_out};
ghost use Rattle.hmac.specs.Hmac.{tag_no, tag_out};

use sha256::TooLong;

// The number of an outcome, as C sees it.
fn number(r: Result<(), TooLong>) -> u32
    ensures { result ≡ outcome_no r }
{
    match r {
        Ok(()) => 0,
        Err(TooLong) => 9,
    }
}

// The digest: 32 bytes to `out` and 0, or 9 and `out` as it was.
#[unsafe(no_mangle)]
pub extern "C" fn cop_digest(input: &[u8], out: &mut [u8; 32]) -> u32
    ensures { (result ≡ digest_no input.now) × (out.new ≡ digest_out input.now out.old) }
{
    number(sha256::digest(input, out))
}

// The tag: 32 bytes to `out` and 0, or 9 and `out` as it was.
#[unsafe(no_mangle)]
pub extern "C" fn cop_tag(key: &[u8], input: &[u8], out: &mut [u8; 32]) -> u32
    ensures { (result ≡ tag_no key.now input.now) × (out.new ≡ tag_out key.now input.now out.old) }
{
    number(hmac::tag(key, input, out))
}
