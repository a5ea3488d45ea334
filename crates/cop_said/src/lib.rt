// What a call says to a program in C or Rust: an outcome as four numbers. Definitions: specs/Said.antt.
#![tactic(auto)]

ghost use Rattle.std.specs.Prelude.{◌≡◌};
ghost use Rattle.replica.specs.Outcome.{event_told, told};
ghost use Rattle.server.specs.Server.{event_told as serverEventTold, told as serverTold};
ghost use Rattle.cop_said.specs.Said.{said, server_said, success_said, refusal_said, halt_said};

use replica::{Event, Outcome};
use server::{ServerEvent, ServerOutcome};

// `what` tells the outcomes apart. `number` is document 01's: 0 for a success, else a refusal's or a halt's. `first`
// and `second` are what a success brings: `second` is signed, since a response may be negative.
#[repr(C)]
#[derive(Clone, Copy)]
pub struct Said {
    pub what: u32,
    pub number: u32,
    pub first: u32,
    pub second: i32,
}

fn success_said(what: u32, first: u32, second: i32) -> Said
    ensures { result ≡ success_said what first second }
{
    Said {
        what,
        number: 0,
        first,
        second,
    }
}

fn refusal_said(number: u8) -> Said
    ensures { result ≡ refusal_said number }
{
    Said {
        what: 0,
        number: number as u32,
        first: 0,
        second: 0,
    }
}

fn halt_said(number: u8) -> Said
    ensures { result ≡ halt_said number }
{
    Said {
        what: 1,
        number: number as u32,
        first: 0,
        second: 0,
    }
}

fn event_said(d: Event) -> Said
    ensures { result ≡ said (event_told d) }
{
    match d {
        Event::Opened => success_said(2, 0, 0),
        Event::Invoked(count) => success_said(3, count, 0),
        Event::Responded { seq, response } => success_said(4, seq, response as i32),
        Event::Aborted { seq } => success_said(5, seq, 0),
        Event::Confirmed { seq, status } => success_said(6, seq, status as i32),
    }
}

// What a client's call says.
pub fn client_said(o: Outcome) -> Said
    ensures { result ≡ said (told o) }
{
    match o {
        Outcome::Success(d) => event_said(d),
        Outcome::Refused(why) => refusal_said(why.number()),
        Outcome::Halted(why) => halt_said(why.number()),
    }
}

fn server_event_said(d: ServerEvent) -> Said
    ensures { result ≡ server_said (serverEventTold d) }
{
    match d {
        ServerEvent::Placed(seq) => success_said(7, seq, 0),
        ServerEvent::Broadcast(n) => success_said(8, n, 0),
    }
}

// What the server's call says.
pub fn server_said(o: ServerOutcome) -> Said
    ensures { result ≡ server_said (serverTold o) }
{
    match o {
        Ok(d) => server_event_said(d),
        Err(why) => refusal_said(why.number()),
    }
}
