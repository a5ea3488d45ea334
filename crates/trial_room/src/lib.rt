// Whether an invoke has room: few enough broadcasts undelivered, and a place to give. Definitions: specs/Trial.antt of trial_core.
#![tactic(auto)]

ghost use Rattle.std.specs.Prelude.{◌≡◌};
ghost use Rattle.message.specs.Layout.{client_count};
ghost use Rattle.trial_core.specs.Trial.{is_full, has_place};

use server::Server;

// Whether 256 or more broadcasts are not yet taken by some client.
pub fn full(next: &[u32; trial_core::CLIENTS], passed: u32) -> bool
    ensures { result ≡ is_full next.now passed client_count }
{
    let mut full = false;
    for n in next {
        full |= *n as u64 + trial_core::FULL_AT <= passed as u64;
    }
    full
}

// Whether the server has a place to give.
#[tactic(auto, unfolding(trial_core::specs::Trial::has_place))]
pub fn has_place(s: &Server) -> bool
    ensures { result ≡ has_place s.now }
{
    s.passed <= s.placed
        && s.placed - s.passed < operation::MAX_PENDING as u32
        && s.placed < message::MAX_SEQ
}
