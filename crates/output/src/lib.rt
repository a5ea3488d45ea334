// Bytes printed to a writer, and how many. What a write does, a contract can say where the writer's bytes are known; what is counted here is
// what was handed to a write that succeeded.
// Definitions: specs/Sends.antt.
#![tactic(auto)]

ghost use Rattle.std.specs.Prelude.{◌≡◌, length, IsNone, IsSome};
ghost use Rattle.std.specs.Io.KnownBytes.{Appends};
ghost use Rattle.output.specs.Sends.{Sends};

use std::io;
use std::io::Write;

// How many bytes the writes so far printed, modulo 2^64, and the cause where one failed.
#[derive(Clone, Copy)]
pub struct Sent {
    pub bytes: u64,
    pub failed: Option<io::Error>,
}

// Nothing printed yet.
pub fn none() -> Sent
    ensures { (result.bytes ≡ 0) × IsNone result.failed }
{
    let failed = None;
    Sent { bytes: 0, failed }
}

// Prints bytes and counts them; nothing after a write that failed.
pub fn send<W: Write>(writer: &mut W, bytes: &[u8], sent: Sent) -> Sent
    ensures sends { Sends sent (length bytes.now) result }
    ensures silent { IsSome sent.failed → (writer.new ≡ writer.old) × (result ≡ sent) }
    ensures kept { IsSome result.failed → result.bytes ≡ sent.bytes }
    ensures bytes { IsNone result.failed → Appends (W.contents writer.old) (W.contents writer.new) bytes.now }
{
    if sent.failed.is_some() {
        return sent;
    }
    match writer.write_all(bytes) {
        Ok(()) => Sent {
            bytes: sent.bytes.wrapping_add(bytes.len() as u64),
            failed: None,
        },
        Err(e) => Sent {
            failed: Some(e),
            ..sent
        },
    }
}
