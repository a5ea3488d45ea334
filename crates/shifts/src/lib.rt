// Bytes moved to the front of where they lie.
#![tactic(auto)]

ghost use Rattle.std.specs.Prelude.{◌≡◌, ◌++◌, ◌-◌, ◌≤◌, length, take, drop, replicate};

// Moves the bytes from `from` to `to` to the front.
pub fn to_front(s: &mut [u8], from: usize, to: usize)
    requires { (from ≤ to) × (to ≤ length s.old) }
    ensures { take (to - from) s.new ≡ take (to - from) (drop from s.old) }
{
    s.copy_within(from..to, 0);
}

// Moves the bytes from `n` on to the front; zeros come after them.
pub fn shift(s: &mut [u8], n: usize)
    requires { n ≤ length s.old }
    ensures { s.new ≡ drop n s.old ++ replicate n 0 }
{
    let kept = s.len() - n;
    s.copy_within(n.., 0);
    s[kept..].fill(0);
}
