// The schedule of a block of SHA-256 (FIPS 180-4, section 6.2.2, step 1). Definitions of the whole step: specs/Block.antt.
#![tactic(auto)]

ghost use Rattle.std.specs.Prelude.{◌≡◌, ◌+◌, ◌<◌, ◌≤◌, length, take};
ghost use Rattle.sha256_block.specs.Block.{words_at, next_word};
ghost use Rattle.sha256_block.specs.Inner.{add_word, add_words};

// Word t of the schedule, from the words before it.
#[tactic(auto, unfolding(crate::specs::Block::next_word))]
fn next_word(w: &[u32; 64], t: usize) -> u32
    requires { (16 ≤ t) × (t < 64) }
    ensures { result ≡ next_word w.now t }
{
    sha256_core::small1(w[t - 2])
        .wrapping_add(w[t - 7])
        .wrapping_add(sha256_core::small0(w[t - 15]))
        .wrapping_add(w[t - 16])
}

// The sixteen words of the block at `at`, in a schedule whose other words are free.
pub fn load(m: &[u8], at: usize) -> [u32; 64]
    requires { at + 64 ≤ length m.now }
    ensures { (length result ≡ 64) × (take 16 result ≡ words_at 16 m.now at) }
{
    let mut w = [0; 64];
    for n in 0..16 {
        w[n] = slices::word_at(m, at + 4 * n);
    }
    w
}

// Word t of the schedule, put in its place.
#[tactic(auto, unfolding(crate::specs::Inner::add_word))]
fn add_word(w: &mut [u32; 64], t: usize)
    requires { (16 ≤ t) × (t < 64) }
    ensures { w.new ≡ add_word t w.old }
{
    w[t] = next_word(w, t);
}

// Eight words of the schedule, from word t on. Unrolled: the last words stay in registers (a loop costs time).
pub fn eight_words(w: &mut [u32; 64], t: usize)
    requires { (16 ≤ t) × (t + 8 ≤ 64) }
    ensures { w.new ≡ add_words 8 t w.old }
{
    add_word(w, t);
    add_word(w, t + 1);
    add_word(w, t + 2);
    add_word(w, t + 3);
    add_word(w, t + 4);
    add_word(w, t + 5);
    add_word(w, t + 6);
    add_word(w, t + 7);
}
