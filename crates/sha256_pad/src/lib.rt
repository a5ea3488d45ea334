// The padding of SHA-256 (FIPS 180-4, section 5.1.1).
#![tactic(auto)]

ghost use Rattle.std.specs.Prelude.{◌≡◌, ◌++◌, ◌*◌, ◌%◌, ◌≤◌, length, take};
ghost use Rattle.sha256_pad.specs.Padding.{padding};
ghost use Rattle.sha256_pad.specs.Inner.{count_of};

// The last bytes of a message of `total` bytes, less than a block, with their padding: one block or two.
pub fn last_blocks(rest: &[u8], total: usize) -> [u8; 128]
    requires { (length rest.now ≡ total % 64) × (total ≤ 65599) }
    ensures { take (64 * count_of (length rest.now)) result ≡ rest.now ++ padding total }
{
    let r = rest.len();
    let mut b = [0; 128];
    b[..r].copy_from_slice(rest);
    b[r] = 0x80;
    let end = (r + 8) / 64 * 64 + 56;
    b[end..end + 8].copy_from_slice(&(8 * total as u64).to_be_bytes());
    b
}
