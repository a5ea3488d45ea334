// The log program: the log that a reader gives to its end, and a line for each of its lines on standard output. What is printed for which line
// is the contract of `meter_log_lines::tell_lines`, and for the last one, where no line feed ends it, of `tell_end`; that no byte is lost
// or told twice between two reads is that of `more`, and of `tell_input` for every way in which the input may come in parts. `run` says
// how many bytes were read and sent, and why it ended. Definitions: specs/Whole.antt, specs/Ran.antt.
#![tactic(auto)]

ghost use Rattle.std.specs.Prelude.{◌≡◌, ◌&&◌, is_none, ◌+◌, ◌≤◌, ◌<◌, ◌^◌, length, take};
ghost use Rattle.input.specs.Reads.{goes_on};
ghost use Rattle.meter_log_told.specs.Told.{line_limit};
ghost use Rattle.meter_log_parts.specs.Whole.{held_of, Finished, First};
ghost use Rattle.meter_log_io.specs.Ran.{Stopped, Ran};

use input::Brought;
use meter_log_parts::State;
use meter_log_told::Log;
use output::Sent;
use std::io::{Read, Write};
use tool::Done;

// Where the input ended its last line is told; where it may go on, what is held may be a part of a line, and is not.
fn finish<W: Write>(
    writer: &mut W,
    brought: Brought,
    state: State,
    kept: Option<usize>,
    buf: &[u8],
    out: &mut [u8],
) -> Sent
    requires { (held_of kept ≤ length buf.now) × (64 ≤ length out.old) × (state.number + 1 < 2 ^ 64) }
    ensures { Finished brought state (is_none kept) (take (held_of kept) buf.now) result }
{
    match brought {
        Brought::Ended => meter_log_parts::tell_end(writer, state, kept, buf, out),
        Brought::Some => state.sent,
        Brought::Failed(_) => state.sent,
        Brought::Limit => state.sent,
    }
}

// Whether to read on.
fn again(brought: Brought, sent: Sent) -> bool
    ensures { result ≡ goes_on brought && is_none sent.failed }
{
    brought.goes_on() && sent.failed.is_none()
}

// Before the first line.
fn first() -> State
    ensures { First result }
{
    State {
        log: Log::Start,
        number: 0,
        sent: output::none(),
    }
}

// After the last read: the state, what is held, how many bytes were read, and what the last read brought.
#[derive(Clone, Copy)]
struct InputTold {
    state: State,
    kept: Option<usize>,
    total: u64,
    brought: Brought,
}

// Reads until the input ends or a read or a write fails, and tells the whole lines.
fn tell_input<R: Read, W: Write>(
    reader: &mut R,
    writer: &mut W,
    buf: &mut [u8],
    out: &mut [u8],
) -> InputTold
    requires { (length buf.old ≡ line_limit + 1) × (64 ≤ length out.old) }
    ensures { Stopped result buf.new }
{
    let mut state = first();
    let mut kept = Some(0);
    let mut total: u64 = 0;
    loop {
        let got = input::read(reader, buf, kept.unwrap_or(0), total);
        let q = meter_log_parts::more(writer, state, kept, got.count, buf, out);
        state = q.state;
        kept = q.kept;
        total = got.total;
        if !again(got.brought, state.sent) {
            return InputTold {
                state,
                kept,
                total,
                brought: got.brought,
            };
        }
    }
}

// Tells the log that `reader` gives.
pub fn run<R: Read, W: Write>(reader: &mut R, writer: &mut W) -> Done
    ensures { Ran result }
{
    let mut buf = [0u8; 65536];
    let mut out = [0u8; 65536];
    let q = tell_input(reader, writer, &mut buf, &mut out);
    let sent = finish(writer, q.brought, q.state, q.kept, &buf, &mut out);
    Done {
        total: q.total,
        sent: sent.bytes,
        why: tool::ended_by(q.brought, sent.failed),
    }
}
