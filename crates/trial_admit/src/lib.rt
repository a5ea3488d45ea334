// An invoke at a client, or `full` (document 01, "Cases"). Definitions: specs/Trial.antt of trial_core.
#![tactic(auto)]

ghost use Rattle.std.specs.Prelude.{◌≡◌, true};
ghost use Rattle.trial_words.specs.Words.{invoke};
ghost use Rattle.trial_core.specs.Trial.{is_client, command_step};
ghost use Rattle.trial_store.specs.Step.{line_of};

use trial_core::{Lent, Trial};
use trial_said::LineWord;
use trial_store::Stepped;

// An invoke at a client, where not too many broadcasts are undelivered.
pub fn invoke(t: Trial, van: u8, kind: u8, cell: u8, amount: u8, lent: &mut Lent) -> Stepped
    requires { is_client van ≡ true }
    ensures { line_of result lent.new ≡ command_step t lent.old (invoke van kind cell amount) }
{
    if trial_room::full(&t.lines.next, t.server.passed) {
        Stepped {
            trial: t,
            van,
            said: LineWord::Full,
        }
    } else {
        let i = (van - 1) as usize;
        let m = trial_moves::invoke(&t, i, kind, cell, amount, lent);
        trial_store::stored(t, van, m)
    }
}
