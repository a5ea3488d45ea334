// Opening a client. Definitions: specs/Open.antt.
#![tactic(auto)]

ghost use Rattle.std.specs.Prelude.{◌≡◌};
ghost use Rattle.replica.specs.Replica.{after_of};
ghost use Rattle.client_open.specs.Open.{open_step};

use replica::{Event, Outcome, Refusal, Stepped};

// Opens a client (document 01: opening a van's book).
#[tactic(auto, unfolding(crate::specs::Open::open_step, crate::specs::Open::open_no))]
pub fn open(number: u8, keys: &[u8]) -> Stepped
    ensures { after_of result ≡ open_step number keys.now }
{
    let zero = replica::fresh(0, [0; message::KEYS_LENGTH]);
    if (number < 1) | (message::CLIENTS < number) {
        return replica::refused(zero, Refusal::Number);
    }
    let Ok(keys) = <[u8; message::KEYS_LENGTH]>::try_from(keys) else {
        return replica::refused(zero, Refusal::Keys);
    };
    Stepped {
        replica: replica::fresh(number, keys),
        outcome: Outcome::Success(Event::Opened),
    }
}
