// A trial with what a move left, and a line that moves nothing. Definitions: specs/Trial.antt of trial_core, specs/Step.antt.
#![tactic(auto)]

ghost use Rattle.std.specs.Prelude.{◌≡◌, ◌-◌, true};
ghost use Rattle.trial_said.specs.Word.{bad};
ghost use Rattle.trial_core.specs.Trial.{Lent, is_client, moved, unmoved};
ghost use Rattle.trial_core.specs.Moves.{move_of};
ghost use Rattle.trial_store.specs.Step.{line_of};

use trial_core::{Moved, Trial};
use trial_said::LineWord;

// A trial after a command, the van that is printed, and what the command gives.
#[derive(Clone, Copy)]
pub struct Stepped {
    pub trial: Trial,
    pub van: u8,
    pub said: LineWord,
}

// The trial with what a move of client `van` left.
pub fn stored(mut t: Trial, van: u8, m: Moved) -> Stepped
    requires { is_client van ≡ true }
    ensures { (b : Lent) → line_of result b ≡ moved t (van - 1) (move_of m b) }
{
    let i = (van - 1) as usize;
    t.replicas[i] = m.replica;
    t.server = m.server;
    t.lines = m.lines;
    Stepped {
        trial: t,
        van,
        said: m.said,
    }
}

// Whether it is a client's number.
pub fn is_client(van: u8) -> bool
    ensures { result ≡ is_client van }
{
    1 <= van && van <= message::CLIENTS
}

// A line of another form, or of no client.
pub fn bad(t: Trial) -> Stepped
    ensures { (b : Lent) → line_of result b ≡ unmoved t b 0 bad }
{
    Stepped {
        trial: t,
        van: 0,
        said: LineWord::Bad,
    }
}
