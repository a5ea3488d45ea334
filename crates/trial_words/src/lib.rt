// What the words of a line of input ask (document 01, "Cases"). Definitions: specs/Words.antt.
#![tactic(auto)]

ghost use Rattle.std.specs.Prelude.{◌≡◌, [], ◌∷◌};
ghost use Rattle.text.specs.Text.{within};
ghost use Rattle.trial_words.specs.Words.{asked, word_number, from_words};

// The highest number of a client.
const CLIENTS: u8 = message::CLIENTS as u8;

// What a line of input asks. A line of another form is a case like the others, with an answer of its own (`bad`): no `Option`.
#[derive(Clone, Copy)]
pub enum Command {
    Invoke {
        van: u8,
        kind: u8,
        cell: u8,
        amount: u8,
    },
    Deliver(u8),
    Other,
}

// The number at most 255 that a word spells.
#[tactic(auto, using(crate::proofs::Laws::word_steps))]
fn byte(w: &[u8]) -> Option<u8>
    ensures { result ≡ within 255 (word_number w.now) }
{
    u8::try_from(text::number(w, 255)?).ok()
}

// What two words ask.
#[tactic(auto, using(crate::proofs::Laws::word_steps))]
pub fn deliver_of(w: &[u8], v: &[u8]) -> Command
    ensures { asked result ≡ from_words (w.now ∷ v.now ∷ []) }
{
    match byte(v) {
        Some(van) if slices::equal(w, b"D") & (1 <= van) & (van <= CLIENTS) => Command::Deliver(
            van,
        ),
        _ => Command::Other,
    }
}

// What five words ask.
#[tactic(auto, using(crate::proofs::Laws::word_steps))]
pub fn invoke_of(w: &[u8], v: &[u8], k: &[u8], c: &[u8], a: &[u8]) -> Command
    ensures { asked result ≡ from_words (w.now ∷ v.now ∷ k.now ∷ c.now ∷ a.now ∷ []) }
{
    match (byte(v), byte(k), byte(c), byte(a)) {
        (Some(van), Some(kind), Some(cell), Some(amount))
            if slices::equal(w, b"I") & (1 <= van) & (van <= CLIENTS) => {
            Command::Invoke {
                van,
                kind,
                cell,
                amount,
            }
        }
        _ => Command::Other,
    }
}
