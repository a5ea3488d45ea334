// The trial of document 01: eight clients, the server and the lines between them. Its state; definitions: specs/Trial.antt.
#![tactic(auto)]

ghost use Rattle.std.specs.Prelude.{◌≡◌, ◌<◌};
ghost use Rattle.message.specs.Layout.{client_count};
ghost use Rattle.trial_core.specs.Trial.{kept_invoke, replica_of};

use replica::Replica;
use server::Server;
use trial_said::LineWord;

// How many clients there are.
pub const CLIENTS: usize = message::CLIENTS as usize;

// Bytes lent to the server for an invoke (a reply of 32 items) and for a commit (32 broadcasts).
pub const INVOKE_ROOM: usize = 1315;

pub const COMMIT_ROOM: usize = 2560;

// How many broadcasts the log keeps, and its bytes.
pub const LOG_SIZE: usize = 512;

pub const LOG_LENGTH: usize = 40960;

// A reply and an invoke for each client.
pub const REPLIES_LENGTH: usize = 10520;

pub const INVOKES_LENGTH: usize = 344;

// At how many broadcasts undelivered to a client an invoke is held back.
pub const FULL_AT: u64 = 256;

// The lines to the clients, client i + 1 at i. The broadcasts of all are one log: `next` has how many of them each client has taken. A
// client has at most one reply on its line: `lengths` has how many bytes it has (0: there is none), `before` how many broadcasts were put
// on the line before it. `refused` says whose invoke waits to be offered again.
// The bytes are lent (`Lent`): a log has the broadcast that p others precede at p modulo LOG_SIZE; replies and invokes have those of each client.
#[derive(Clone, Copy)]
pub struct Lines {
    pub next: [u32; CLIENTS],
    pub before: [u32; CLIENTS],
    pub lengths: [u32; CLIENTS],
    pub refused: [bool; CLIENTS],
}

// What is lent from line to line: the log, and the replies and the invokes of all clients.
#[derive(Drop)]
pub struct Lent {
    pub log: [u8; LOG_LENGTH],
    pub replies: [u8; REPLIES_LENGTH],
    pub invokes: [u8; INVOKES_LENGTH],
}

impl Lent {
    // The invoke of client `i` + 1, as a value of its own: the replies can then be lent beside it.
    pub fn invoke_of(&self, i: usize) -> [u8; message::INVOKE_LENGTH]
        requires { i < client_count }
        ensures { result ≡ kept_invoke self.now.invokes i }
    {
        let at = i * message::INVOKE_LENGTH;
        let mut m = [0; message::INVOKE_LENGTH];
        m.copy_from_slice(&self.invokes[at..at + message::INVOKE_LENGTH]);
        m
    }
}

#[derive(Clone, Copy)]
pub struct Trial {
    pub replicas: [Replica; CLIENTS],
    pub server: Server,
    pub lines: Lines,
}

impl Trial {
    // The replica of client `i` + 1.
    pub fn replica(&self, i: usize) -> Replica
        requires { i < client_count }
        ensures { result ≡ replica_of self.now i }
    {
        self.replicas[i]
    }
}

// A client, the server and the lines after a line of input, and what it prints.
#[derive(Clone, Copy)]
pub struct Moved {
    pub replica: Replica,
    pub server: Server,
    pub lines: Lines,
    pub said: LineWord,
}
