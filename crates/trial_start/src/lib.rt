// The trial program's start (document 01, "Cases"). Definitions: specs/Trial.antt of trial_core.
#![tactic(auto)]

ghost use Rattle.std.specs.Prelude.{◌≡◌, replicate};
ghost use Rattle.message.specs.Layout.{keys_length};
ghost use Rattle.client_open.specs.Open.{open_step};
ghost use Rattle.trial_core.specs.Trial.{trial_keys, start_trial, start_lent};

use replica::Replica;
use trial_core::{Lent, Lines, Trial};

fn no_keys() -> [u8; message::KEYS_LENGTH]
    ensures { result ≡ replicate keys_length 0 }
{
    [0u8; message::KEYS_LENGTH]
}

// Client j's key: 32 bytes of value j.
fn keys() -> [u8; message::KEYS_LENGTH]
    ensures { result ≡ trial_keys }
{
    let mut keys = no_keys();
    for i in 0..trial_core::CLIENTS {
        let at = i * message::KEY_LENGTH;
        keys[at..at + message::KEY_LENGTH].copy_from_slice(&[(i + 1) as u8; message::KEY_LENGTH]);
    }
    keys
}

fn opened(number: u8) -> Replica
    ensures { result ≡ (open_step number trial_keys).replica }
{
    client::open(number, &keys()).replica
}

#[tactic(auto, unfolding(trial_core::specs::Trial::start_trial))]
fn no_lines() -> Lines
    ensures { result ≡ start_trial.lines }
{
    Lines {
        next: [0; trial_core::CLIENTS],
        before: [0; trial_core::CLIENTS],
        lengths: [0; trial_core::CLIENTS],
        refused: [false; trial_core::CLIENTS],
    }
}

// Eight fresh clients, a fresh server and empty lines.
pub fn start() -> Trial
    ensures { result ≡ start_trial }
{
    Trial {
        replicas: [
            opened(1),
            opened(2),
            opened(3),
            opened(4),
            opened(5),
            opened(6),
            opened(7),
            opened(8),
        ],
        server: server::fresh(),
        lines: no_lines(),
    }
}

// The bytes lent at the start: all zero.
#[tactic(auto, unfolding(trial_core::specs::Trial::start_lent))]
pub fn fresh_lent() -> Lent
    ensures { result ≡ start_lent }
{
    Lent {
        log: [0; trial_core::LOG_LENGTH],
        replies: [0; trial_core::REPLIES_LENGTH],
        invokes: [0; trial_core::INVOKES_LENGTH],
    }
}
