// One block of SHA-256 (FIPS 180-4, section 6.2.2): the rounds on its schedule, and the next hash value. Definitions: specs/Block.antt of sha256_block.
#![tactic(auto)]

ghost use Rattle.std.specs.Prelude.{◌≡◌, ◌+◌, ◌≤◌, ◌<◌, length, take};
ghost use Rattle.sha256_block.specs.Block.{words_at, schedule, rounds, compress_of};
ghost use Rattle.sha256_block.specs.Inner.{rounds_from};

use sha256_core::State;

// Eight rounds from round t on. Unrolled: the eight words are renamed and not moved (a loop costs time).
fn eight(w: &[u32; 64], t: usize, s: State) -> State
    requires { t + 8 ≤ 64 }
    ensures { result ≡ rounds_from 8 t w.now s }
{
    let s1 = sha256_core::round(w, t, s);
    let s2 = sha256_core::round(w, t + 1, s1);
    let s3 = sha256_core::round(w, t + 2, s2);
    let s4 = sha256_core::round(w, t + 3, s3);
    let s5 = sha256_core::round(w, t + 4, s4);
    let s6 = sha256_core::round(w, t + 5, s5);
    let s7 = sha256_core::round(w, t + 6, s6);
    sha256_core::round(w, t + 7, s7)
}

// The 64 rounds on a schedule whose first 16 words are there: after each eight rounds the eight words that the rounds after the next read.
fn all_rounds(w: &mut [u32; 64], s: State) -> State
    requires { length w.old ≡ 64 }
    ensures { result ≡ rounds 64 (schedule 48 (take 16 w.old)) s }
{
    let mut q = s;
    for n in 0..8 {
        q = eight(w, 8 * n, q);
        if n < 6 {
            sha256_block::eight_words(w, 16 + 8 * n);
        }
    }
    q
}

// The next hash value, from the block at `at`.
#[tactic(auto, unfolding(sha256_block::specs::Block::compress_of))]
pub fn compress(s: State, m: &[u8], at: usize) -> State
    requires { at + 64 ≤ length m.now }
    ensures { result ≡ compress_of s (words_at 16 m.now at) }
{
    let mut w = sha256_block::load(m, at);
    sha256_core::sum(s, all_rounds(&mut w, s))
}
