// One line of the trial program's input (document 01, "Cases"). Definitions: specs/Trial.antt of trial_core.
#![tactic(auto)]

ghost use Rattle.std.specs.Prelude.{◌≡◌, true};
ghost use Rattle.trial_words.specs.Words.{asked, deliver};
ghost use Rattle.trial_core.specs.Trial.{is_client, again_of, again_trial, again_lent, command_step, line_step};
ghost use Rattle.trial_store.specs.Step.{line_of};

use trial_core::{Lent, Trial};
use trial_store::Stepped;
use trial_words::Command;

// ---- a command

// A client takes the head of its line.
fn deliver(t: Trial, van: u8, lent: &mut Lent) -> Stepped
    requires { is_client van ≡ true }
    ensures { line_of result lent.new ≡ command_step t lent.old (deliver van) }
{
    let i = (van - 1) as usize;
    let m = trial_moves::deliver(&t, i, lent);
    trial_store::stored(t, van, m)
}

// The trial after the refused invokes are offered again.
fn offered_again(t: Trial, lent: &mut Lent) -> Trial
    ensures { (result ≡ again_trial t (again_of t lent.old)) × (lent.new ≡ again_lent lent.old (again_of t lent.old)) }
{
    let o = trial_offer::offer_again(t.server, t.lines, lent);
    Trial {
        server: o.server,
        lines: o.lines,
        ..t
    }
}

// What a command does, once the refused invokes have been offered again.
fn obeyed(t: Trial, command: Command, lent: &mut Lent) -> Stepped
    ensures { line_of result lent.new ≡ command_step t lent.old (asked command) }
{
    match command {
        Command::Invoke {
            van,
            kind,
            cell,
            amount,
        } => {
            if trial_store::is_client(van) {
                trial_admit::invoke(t, van, kind, cell, amount, lent)
            } else {
                trial_store::bad(t)
            }
        }
        Command::Deliver(van) => {
            if trial_store::is_client(van) {
                deliver(t, van, lent)
            } else {
                trial_store::bad(t)
            }
        }
        Command::Other => trial_store::bad(t),
    }
}

// One line of input.
pub fn step(trial: Trial, command: Command, lent: &mut Lent) -> Stepped
    ensures { line_of result lent.new ≡ line_step trial lent.old (asked command) }
{
    let t = offered_again(trial, lent);
    obeyed(t, command, lent)
}
