// The exports of cop_digest by themselves, for a C program that times them (bench/run.sh).
#![tactic(auto)]

ghost use Rattle.std.specs.Prelude.{◌≡◌};
ghost use Rattle.sha256.specs.Sha256.{digest_no, digest_out};
ghost use Rattle.hmac.specs.Hmac.{tag_no, tag_out};

// The digest: 32 bytes to `out` and 0, or 9 and `out` as it was.
#[unsafe(no_mangle)]
pub extern "C" fn cop_digest(input: &[u8], out: &mut [u8; 32]) -> u32
    ensures { (result ≡ digest_no input.now) × (out.new ≡ digest_out input.now out.old) }
{
    cop_digest::cop_digest(input, out)
}

// The tag: 32 bytes to `out` and 0, or 9 and `out` as it was.
#[unsafe(no_mangle)]
pub extern "C" fn cop_tag(key: &[u8], input: &[u8], out: &mut [u8; 32]) -> u32
    ensures { (result ≡ tag_no key.now input.now) × (out.new ≡ tag_out key.now input.now out.old) }
{
    cop_digest::cop_tag(key, input, out)
}
