// The trial program of document 01: lines of an input to its end, and a line for each on standard output. Here is the loop that reads.
// Definitions: specs/Printed.antt, what an input prints; specs/Reached.antt, all that was read. That the bytes of a line are those of its
// word in trial_laws is the crate trial_printed; that an over-long line is of another form, proofs/OverLong.antt.
#![tactic(auto)]

ghost use Rattle.std.specs.Prelude.{◌≡◌, ◌+◌, ◌≤◌, ◌<◌, ◌^◌, length, take, replicate};
ghost use Rattle.trial_core.specs.Trial.{start_lent};
ghost use Rattle.trial_core.specs.Sizes.{log_length, replies_length, invokes_length};
ghost use Rattle.trial_io.specs.Reached.{ReadTo, Ran, at_end};

use input::Brought;
use std::io::{Read, Write};
use tool::{Done, Why};
use trial_buffer::After;
use trial_core::Lent;

// After the reads: what the lines left, how many bytes were read, and what the last read brought.
#[derive(Clone, Copy)]
struct Reading {
    after: After,
    total: u64,
    brought: Brought,
}

// Reads an input to its end, from a fresh trial, and answers its whole lines. It stops where a write fails, and where nearly 2^64 bytes
// were read. Each line has a byte of the input, so that numbers of lines stay below 2^64 for as many bytes.
fn read_lines<R: Read, W: Write>(
    reader: &mut R,
    writer: &mut W,
    buf: &mut [u8],
    out: &mut [u8],
    lent: &mut Lent,
) -> Reading
    requires { (length buf.old ≡ 65536) × (64 ≤ length out.old) × (lent.old ≡ start_lent) }
    ensures { ReadTo result lent.new buf.new }
{
    let mut after = After {
        trial: trial_start::start(),
        number: 0,
        held: 0,
        sent: output::none(),
    };
    let mut total: u64 = 0;
    let mut brought = Brought::Some;
    let mut going = true;
    while going {
        let got = input::read(reader, buf, after.held, total);
        total = got.total;
        brought = got.brought;
        after = trial_buffer::whole_lines(
            writer,
            after.trial,
            after.number,
            after.sent,
            got.count,
            buf,
            out,
            lent,
        );
        going = brought.goes_on() & after.sent.failed.is_none();
    }
    Reading {
        after,
        total,
        brought,
    }
}

// Whether the input was read to its end, and all of it sent so far.
#[tactic(auto, unfolding(crate::specs::Reached::at_end))]
fn at_end(why: Why) -> bool
    ensures { result ≡ at_end why }
{
    matches!(why, Why::Ended)
}

// Reads what a reader gives to its end, from a fresh trial, and prints what its lines give; at its end, bytes after the last line feed are a line.
pub fn run<R: Read, W: Write>(reader: &mut R, writer: &mut W) -> Done
    ensures { Ran result }
{
    let mut buf = [0u8; 65536];
    let mut out = [0u8; 65536];
    let mut lent = trial_start::fresh_lent();
    let q = read_lines(reader, writer, &mut buf, &mut out, &mut lent);
    let why = tool::ended_by(q.brought, q.after.sent.failed);
    if at_end(why) {
        let n = trial_bytes::end_line(&mut buf, q.after.held);
        let last = trial_buffer::whole_lines(
            writer,
            q.after.trial,
            q.after.number,
            q.after.sent,
            n,
            &mut buf,
            &mut out,
            &mut lent,
        );
        return Done {
            total: q.total,
            sent: last.sent.bytes,
            why: tool::ended_by(q.brought, last.sent.failed),
        };
    }
    Done {
        total: q.total,
        sent: q.after.sent.bytes,
        why,
    }
}
