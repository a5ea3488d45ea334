// What an outcome of a client or of the server prints, and whether it is a success. Definitions: specs/Trial.antt of trial_core.
#![tactic(auto)]

ghost use Rattle.std.specs.Prelude.{◌≡◌};
ghost use Rattle.trial_said.specs.Word.{word_of};
ghost use Rattle.replica.specs.Outcome as O;
ghost use Rattle.server.specs.Server as S;
ghost use Rattle.trial_core.specs.Trial.{told_word, served_word, is_success, is_placed, broadcast_count};

use replica::{Event, Outcome};
use server::{ServerEvent, ServerOutcome};
use trial_said::LineWord;

fn event_said(event: Event) -> LineWord
    ensures { word_of result ≡ told_word (O.event_told event) }
{
    match event {
        Event::Opened => LineWord::Empty,
        Event::Invoked(_) => LineWord::Empty,
        Event::Responded { seq, response } => LineWord::Answer {
            place: seq,
            answer: response,
        },
        Event::Aborted { seq } => LineWord::Aside(seq),
        Event::Confirmed { seq, status } => LineWord::Confirm { place: seq, status },
    }
}

// What a client's outcome prints.
pub fn told_said(outcome: Outcome) -> LineWord
    ensures { word_of result ≡ told_word (O.told outcome) }
{
    match outcome {
        Outcome::Success(event) => event_said(event),
        Outcome::Refused(why) => LineWord::No(why.number()),
        Outcome::Halted(why) => LineWord::Halt(why.number()),
    }
}

// Whether a client's call is a success.
pub fn is_success(outcome: Outcome) -> bool
    ensures { result ≡ is_success (O.told outcome) }
{
    match outcome {
        Outcome::Success(_) => true,
        Outcome::Refused(_) => false,
        Outcome::Halted(_) => false,
    }
}

// What the server's outcome prints.
pub fn served_said(outcome: ServerOutcome) -> LineWord
    ensures { word_of result ≡ served_word (S.told outcome) }
{
    match outcome {
        Ok(ServerEvent::Placed(p)) => LineWord::Placed(p),
        Ok(ServerEvent::Broadcast(_)) => LineWord::Empty,
        Err(why) => LineWord::No(why.number()),
    }
}

// Whether the server placed an invoke.
pub fn is_placed(outcome: ServerOutcome) -> bool
    ensures { result ≡ is_placed (S.told outcome) }
{
    match outcome {
        Ok(ServerEvent::Placed(_)) => true,
        Ok(ServerEvent::Broadcast(_)) => false,
        Err(_) => false,
    }
}

// How many broadcasts the server wrote.
pub fn broadcast_count(outcome: ServerOutcome) -> u32
    ensures { result ≡ broadcast_count (S.told outcome) }
{
    match outcome {
        Ok(ServerEvent::Placed(_)) => 0,
        Ok(ServerEvent::Broadcast(n)) => n,
        Err(_) => 0,
    }
}
