// The client's state, its places, the outcomes of its calls, check 8 and checks in order. Definitions: specs/Outcome.antt,
// specs/Places.antt, specs/Replica.antt.
#![tactic(auto)]

ghost use Rattle.std.specs.Prelude.{◌≡◌, ◌≤◌};
ghost use Rattle.replica.specs.Outcome.{refusal_no, halt_no, stop_no, is_halt};
ghost use Rattle.replica.specs.declared.Stop.TheVariants.{Refused, Halted};
ghost use Rattle.operation.specs.Operation.{max_pending};
ghost use Rattle.replica.specs.Places.{value_at};
ghost use Rattle.replica.specs.Replica.{fresh_replica, no_current, after_of, refuse, halt, stop};

use operation::{Cells, Operation, Response};

// The bytes of a chain: 33 values.
pub const CHAIN_LENGTH: usize = 1056;

// A client's state (document 01: a van's book). `confirmed` is the last confirmed sequence number (c), `held` how many
// sequence numbers past it have a chain value. `chain` has 33 values of 32 bytes: that at `confirmed`, then those held.
// `statuses` has the own statuses at the held ones: 0 none, 1 success, 2 aborted. No current operation: all fields 0.
#[repr(C)]
#[derive(Clone, Copy)]
pub struct Replica {
    pub number: u8,
    pub keys: [u8; message::KEYS_LENGTH],
    pub count: u32,
    pub current: Operation,
    pub confirmed: u32,
    pub held: u32,
    pub chain: [u8; CHAIN_LENGTH],
    pub statuses: [u8; operation::MAX_PENDING],
    pub cells: Cells,
    pub halt: u8,
}

// Why a call is refused; its number is `refusal_no` of specs/Outcome.antt.
#[derive(Clone, Copy, Debug, PartialEq, Eq)]
pub enum Refusal {
    Number,
    Keys,
    HaltMark,
    Current,
    Forbidden,
    CountFull,
    Room,
    Range,
}

impl Refusal {
    // The number of a refusal.
    pub fn number(self) -> u8
        ensures { result ≡ refusal_no self }
    {
        match self {
            Refusal::Number => 1,
            Refusal::Keys => 2,
            Refusal::HaltMark => 3,
            Refusal::Current => 4,
            Refusal::Forbidden => 5,
            Refusal::CountFull => 6,
            Refusal::Room => 7,
            Refusal::Range => 8,
        }
    }
}

// Why a client halts; its number is `halt_no`.
#[derive(Clone, Copy, Debug, PartialEq, Eq)]
pub enum Halt {
    Form,
    Content,
    Tag,
    Chain,
    Last,
    Seq,
    Uncommitted,
}

impl Halt {
    // The number of a halt.
    pub fn number(self) -> u8
        ensures { result ≡ halt_no self }
    {
        match self {
            Halt::Form => 20,
            Halt::Content => 21,
            Halt::Tag => 22,
            Halt::Chain => 23,
            Halt::Last => 24,
            Halt::Seq => 25,
            Halt::Uncommitted => 26,
        }
    }
}

// Why a call does not succeed: the error of the checks; its number is `stop_no`.
#[derive(Clone, Copy, Debug, PartialEq, Eq)]
pub enum Stop {
    Refused(Refusal),
    Halted(Halt),
}

impl From<Refusal> for Stop {
    ghost from_gives = { λ why stop. stop ≡ Refused why };

    fn from(why: Refusal) -> Stop {
        Stop::Refused(why)
    }
}

impl From<Halt> for Stop {
    ghost from_gives = { λ why stop. stop ≡ Halted why };

    fn from(why: Halt) -> Stop {
        Stop::Halted(why)
    }
}

// What a successful call brings.
#[derive(Clone, Copy, Debug, PartialEq, Eq)]
pub enum Event {
    Opened,
    Invoked(u32),
    Responded { seq: u32, response: Response },
    Aborted { seq: u32 },
    Confirmed { seq: u32, status: u8 },
}

#[derive(Clone, Copy, Debug, PartialEq, Eq)]
pub enum Outcome {
    Success(Event),
    Refused(Refusal),
    Halted(Halt),
}

// The state after a call, and its outcome.
#[derive(Clone, Copy)]
pub struct Stepped {
    pub replica: Replica,
    pub outcome: Outcome,
}

// The chain value at place `c` + `k`, where `c` is the last confirmed one.
pub fn value_at(c: u32, k: usize, chain: &[u8; CHAIN_LENGTH]) -> [u8; message::DIGEST_LENGTH]
    requires { k ≤ max_pending }
    ensures { result ≡ value_at c k chain.now }
{
    slices::part(chain, k * message::DIGEST_LENGTH)
}

// Whether there is no current operation.
pub fn no_current(e: Operation) -> bool
    ensures { result ≡ no_current e }
{
    e == operation::no_op()
}

// A fresh state.
pub fn fresh(number: u8, keys: [u8; message::KEYS_LENGTH]) -> Replica
    ensures { result ≡ fresh_replica number keys }
{
    Replica {
        number,
        keys,
        count: 0,
        current: operation::no_op(),
        confirmed: 0,
        held: 0,
        chain: [0; CHAIN_LENGTH],
        statuses: [0; operation::MAX_PENDING],
        cells: operation::zero_cells(),
        halt: 0,
    }
}

// A refusal: the state as it was.
pub fn refused(replica: Replica, why: Refusal) -> Stepped
    ensures { after_of result ≡ refuse replica (refusal_no why) }
{
    Stepped {
        replica,
        outcome: Outcome::Refused(why),
    }
}

// Whether a number is a halt's.
pub fn is_halt(number: u8) -> bool
    ensures { result ≡ is_halt number }
{
    (20 <= number) & (number <= 26)
}

// A halt: the halt mark set, the rest as it was.
fn halted(replica: Replica, why: Halt) -> Stepped
    ensures { after_of result ≡ halt replica (halt_no why) }
{
    Stepped {
        replica: Replica {
            halt: why.number(),
            ..replica
        },
        outcome: Outcome::Halted(why),
    }
}

// A check's no, carried out.
pub fn stopped(replica: Replica, why: Stop) -> Stepped
    ensures { after_of result ≡ stop replica (stop_no why) }
{
    match why {
        Stop::Refused(why) => refused(replica, why),
        Stop::Halted(why) => halted(replica, why),
    }
}
