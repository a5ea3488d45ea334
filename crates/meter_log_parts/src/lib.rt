// Bytes of a log that came, told and printed: the whole lines among them, what is held of the rest, and the last line. What is printed for
// which line is the contract of `meter_log_lines::tell_lines`; that no byte is lost or told twice between two reads is that of `more`.
// Inner steps of the log program. Definitions: specs/Whole.antt.
#![tactic(auto)]

ghost use Rattle.std.specs.Prelude.{◌≡◌, [], true, is_none, ◌+◌, ◌≤◌, ◌<◌, ◌^◌, length, take};
ghost use Rattle.meter_log_told.specs.Told.{line_limit};
ghost use Rattle.meter_log_parts.specs.Whole.{between, held_of, Stands, Past, OneMore, AllTold, Came, LastTold};

use meter_log_told::{Log, LogStep};
use output::Sent;
use std::io::Write;

// The program between two lines: the log, how many lines were told, and what was sent.
#[derive(Clone, Copy)]
pub struct State {
    pub log: Log,
    pub number: u64,
    pub sent: Sent,
}

// The whole lines of a buffer are told: the state after them, and where they end.
#[derive(Clone, Copy)]
struct Passed {
    state: State,
    at: usize,
}

// After some bytes: the state, and how many bytes of a line that is not yet whole stand in the front of the buffer; none of an over-long one.
#[derive(Clone, Copy)]
pub struct StateAfter {
    pub state: State,
    pub kept: Option<usize>,
}

// Tells the whole lines among the bytes from `from` to `n`, and prints what they give. `tell_lines` stops where `out` has little room,
// so it is called until it uses nothing.
fn tell_between<W: Write>(
    writer: &mut W,
    start: State,
    from: usize,
    n: usize,
    buf: &[u8],
    out: &mut [u8],
) -> Passed
    requires { (from ≤ n) × (n ≤ length buf.now) × (64 ≤ length out.old) × (start.number + n < 2 ^ 64 + from) }
    ensures { Past start (between buf.now from n) (between buf.now result.at n) result.state × (from ≤ result.at) × (result.at ≤ n) }
{
    let mut state = start;
    let mut at = from;
    let mut used = 1;
    while used != 0 {
        let q = meter_log_lines::tell_lines(state.log, state.number, &buf[at..n], out);
        let sent = output::send(writer, &out[..q.filled], state.sent);
        state = State {
            log: q.log,
            number: state.number + q.count,
            sent,
        };
        used = q.used;
        at += used;
    }
    Passed { state, at }
}

// Holds the bytes from `at` to `n`, which are not yet a line, in the front of the buffer, unless they fill it.
fn hold_rest(buf: &mut [u8], at: usize, n: usize) -> Option<usize>
    requires { (at ≤ n) × (n ≤ length buf.old) × (length buf.old ≡ line_limit + 1) }
    ensures { Stands (is_none result) (take (held_of result) buf.new) (between buf.old at n) × (held_of result < length buf.old) }
{
    shifts::to_front(buf, at, n);
    let held = n - at;
    if held == buf.len() {
        return None;
    }
    Some(held)
}

// The bytes from `from` to `n` came.
fn tell_from<W: Write>(
    writer: &mut W,
    start: State,
    from: usize,
    n: usize,
    buf: &mut [u8],
    out: &mut [u8],
) -> StateAfter
    requires { (from ≤ n) × (n ≤ length buf.old) × (length buf.old ≡ line_limit + 1) × (64 ≤ length out.old) × (start.number + n < 2 ^ 64 + from) }
    ensures { AllTold start (between buf.old from n) result.state result.kept buf.new
        × (held_of result.kept < length buf.new) }
{
    let q = tell_between(writer, start, from, n, buf, out);
    let kept = hold_rest(buf, q.at, n);
    StateAfter {
        state: q.state,
        kept,
    }
}

// Prints what is told of the next line.
fn tell_one<W: Write>(writer: &mut W, state: State, step: LogStep, out: &mut [u8]) -> State
    requires { (64 ≤ length out.old) × (state.number + 1 < 2 ^ 64) }
    ensures { OneMore state step result out.new }
{
    let number = state.number + 1;
    let k = meter_log_put::put_told(out, 0, number, step.told);
    let sent = output::send(writer, &out[..k], state.sent);
    State {
        log: step.log,
        number,
        sent,
    }
}

// The first `n` bytes of the buffer came in the midst of an over-long line.
fn tell_over<W: Write>(
    writer: &mut W,
    state: State,
    n: usize,
    buf: &mut [u8],
    out: &mut [u8],
) -> StateAfter
    requires { (n ≤ length buf.old) × (length buf.old ≡ line_limit + 1) × (64 ≤ length out.old) × (state.number + n < 2 ^ 64) }
    ensures { Came state true [] (between buf.old 0 n) result.state result.kept buf.new }
{
    let e = text::find(&buf[0..n], 0, 10);
    if e == n {
        return StateAfter { state, kept: None };
    }
    let step = meter_log_told::tell_long(state.log);
    let next = tell_one(writer, state, step, out);
    tell_from(writer, next, e + 1, n, buf, out)
}

// After a line under way, for which what is kept stands, the bytes up to `n` came.
pub fn more<W: Write>(
    writer: &mut W,
    state: State,
    kept: Option<usize>,
    n: usize,
    buf: &mut [u8],
    out: &mut [u8],
) -> StateAfter
    requires { (held_of kept ≤ n) × (n ≤ length buf.old) × (length buf.old ≡ line_limit + 1) × (64 ≤ length out.old) × (state.number + n < 2 ^ 64) }
    ensures { Came state (is_none kept) (take (held_of kept) buf.old) (between buf.old (held_of kept) n) result.state result.kept buf.new }
{
    match kept {
        None => tell_over(writer, state, n, buf, out),
        Some(_) => tell_from(writer, state, 0, n, buf, out),
    }
}

// Tells the last line, where there is one: bytes that no line feed ends. Answers what was sent then.
pub fn tell_end<W: Write>(
    writer: &mut W,
    state: State,
    kept: Option<usize>,
    buf: &[u8],
    out: &mut [u8],
) -> Sent
    requires { (held_of kept ≤ length buf.now) × (64 ≤ length out.old) × (state.number + 1 < 2 ^ 64) }
    ensures { LastTold state (is_none kept) (take (held_of kept) buf.now) result }
{
    match kept {
        None => {
            let long = meter_log_told::tell_long(state.log);
            tell_one(writer, state, long, out).sent
        }
        Some(0) => state.sent,
        Some(held) => {
            let last = meter_log_told::tell_last(state.log, &buf[..held]);
            tell_one(writer, state, last, out).sent
        }
    }
}
