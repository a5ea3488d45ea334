// Bytes of a reader, as of an open file, read piece by piece to stand after those held. Definitions: specs/Reads.antt.
#![tactic(auto)]

ghost use Rattle.std.specs.Prelude.{◌<◌, ◌≡◌, length};
ghost use Rattle.input.specs.Reads.{goes_on, Reads, Gives};

use std::io;
use std::io::Read;

// What a read brought: some bytes; the end of the input; a failure, with its cause; or nothing, since no more may be read.
#[derive(Clone, Copy)]
pub enum Brought {
    Some,
    Ended,
    Failed(io::Error),
    Limit,
}

// After a read: how many bytes there are now, how many were read in all, and what the read brought.
#[derive(Clone, Copy)]
pub struct Input {
    pub count: usize,
    pub total: u64,
    pub brought: Brought,
}

impl Brought {
    // Whether there may be more to read.
    #[tactic(auto, unfolding(crate::specs::Reads::goes_on))]
    pub fn goes_on(self) -> bool
        ensures { result ≡ goes_on self }
    {
        matches!(self, Brought::Some)
    }
}

// One read, of bytes to stand after the first `held`; `total` bytes were read before it. There is room for at least one byte: a read into
// no room would look like the end of the input.
pub fn read<R: Read>(reader: &mut R, buf: &mut [u8], held: usize, total: u64) -> Input
    requires { held < length buf.old }
    ensures reads { Reads buf.old buf.new held total result }
    ensures bytes { Gives (R.remaining reader.old) (R.remaining reader.new) held buf.new result }
{
    if u64::MAX - total <= buf.len() as u64 {
        return Input {
            count: held,
            total,
            brought: Brought::Limit,
        };
    }
    match reader.read(&mut buf[held..]) {
        Ok(0) => Input {
            count: held,
            total,
            brought: Brought::Ended,
        },
        Ok(n) => Input {
            count: held + n,
            total: total + n as u64,
            brought: Brought::Some,
        },
        Err(e) => Input {
            count: held,
            total,
            brought: Brought::Failed(e),
        },
    }
}
