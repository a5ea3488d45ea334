// A check by itself; checks in order are such checks, each with its question mark. Definitions: specs/Checks.antt.
#![tactic(auto)]

ghost use Rattle.std.specs.Prelude.{◌≡◌};
ghost use Rattle.checks.specs.Checks.{asked};

// One check: goes on after a yes, stops with `no` after a no.
pub fn ask<E: Copy>(yes: bool, no: E) -> Result<(), E>
    ensures { result ≡ asked yes no }
{
    if yes { Ok(()) } else { Err(no) }
}
