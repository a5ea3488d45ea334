// Runs the calls that standard input lists on two server states, and prints a line for each: tests/server_run.py has the
// form of both. Nothing is claimed but that it is safe and ends; what it prints is held to the file stdout.
#![tactic(auto)]

ghost use Rattle.std.specs.Prelude.{◌+◌, ◌≤◌, ◌<◌};

use server::{Served, Server, ServerEvent, ServerOutcome};

// The bytes of a state: each field in its order, numbers in four bytes.
const SIZE: usize = 3432;

// The place of a state: that of the second one for a number above 0.
fn slot(line: &[u8], k: usize) -> usize
    ensures { result < 2 }
{
    call_lines::number_at(line, k, 1) as usize
}

// Printing

fn print_event<R: Print>(rt: &R, event: ServerEvent) {
    match event {
        ServerEvent::Placed(seq) => call_lines::print_one(rt, b"placed", seq as u64),
        ServerEvent::Broadcast(n) => call_lines::print_one(rt, b"passed", n as u64),
    }
}

fn print_outcome<R: Print>(rt: &R, outcome: ServerOutcome) {
    match outcome {
        Ok(event) => print_event(rt, event),
        Err(why) => call_lines::print_one(rt, b"no", why.number() as u64),
    }
}

// A state in bytes

// The number in the four bytes from `at` on.
fn number_of(state: &[u8; SIZE], at: usize) -> u32
    requires { at + 4 ≤ 3432 }
{
    u32::from_be_bytes(call_lines::part(state, at))
}

fn counts_of(state: &[u8; SIZE]) -> [u32; message::CLIENTS as usize] {
    let mut counts = [0; message::CLIENTS as usize];
    for i in 0..8 {
        counts[i] = number_of(state, 8 + i * 4);
    }
    counts
}

fn server_of(state: &[u8; SIZE]) -> Server {
    Server {
        placed: number_of(state, 0),
        passed: number_of(state, 4),
        counts: counts_of(state),
        items: call_lines::part(state, 40),
        statuses: call_lines::part(state, 1352),
        digests: call_lines::part(state, 1384),
        tags: call_lines::part(state, 2408),
    }
}

fn store(state: &mut [u8; SIZE], s: &Server) {
    state[0..4].copy_from_slice(&s.placed.to_be_bytes());
    state[4..8].copy_from_slice(&s.passed.to_be_bytes());
    for i in 0..8 {
        let at = 8 + i * 4;
        state[at..at + 4].copy_from_slice(&s.counts[i].to_be_bytes());
    }
    state[40..1352].copy_from_slice(&s.items);
    state[1352..1384].copy_from_slice(&s.statuses);
    state[1384..2408].copy_from_slice(&s.digests);
    state[2408..3432].copy_from_slice(&s.tags);
}

// Keeps the state, and prints its digest.
fn keep_state<R: Print>(rt: &R, state: &mut [u8; SIZE], s: &Server) {
    store(state, s);
    call_lines::print_digest(rt, state);
}

// Calls

fn receive(s: Server, line: &[u8], out: &mut [u8]) -> Served {
    let number = call_lines::byte_at(line, 3);
    let mut m = [0u8; 4096];
    let n = call_lines::bytes_at(line, 5, &mut m);
    server_receive::receive(s, number, &m[0..n], out)
}

// The call with the first bytes lent, as many as the line says.
fn receive_in(s: Server, line: &[u8], out: &mut [u8; 4096]) -> Served {
    let room = call_lines::number_at(line, 4, 4096) as usize;
    receive(s, line, &mut out[..room])
}

fn call<R: Print>(rt: &R, states: &mut [[u8; SIZE]; 2], line: &[u8]) {
    let s = server_of(&states[slot(line, 1)]);
    let mut out = [0xaa; 4096];
    let served = receive_in(s, line, &mut out);
    print_outcome(rt, served.outcome);
    keep_state(rt, &mut states[slot(line, 2)], &served.server);
    call_lines::print_digest(rt, &out);
}

fn fresh_at<R: Print>(rt: &R, state: &mut [u8; SIZE]) {
    call_lines::print(rt, b"fresh");
    keep_state(rt, state, &server::fresh());
}

// A line's first letter says what it asks.
fn one<R: Print>(rt: &R, states: &mut [[u8; SIZE]; 2], line: &[u8]) {
    match call_lines::first_letter(line) {
        b'#' => call_lines::print(rt, line),
        b'f' => fresh_at(rt, &mut states[slot(line, 1)]),
        b'c' => {
            let to = slot(line, 2);
            states[to] = states[slot(line, 1)];
            call_lines::change(rt, &mut states[to], line);
        }
        _ => call(rt, states, line),
    }
}

fn main(rt: HostRuntime) {
    let mut states = [[0u8; SIZE]; 2];
    let mut text = call_lines::text_buffer();
    let n = call_lines::read_full(&mut rt.stdin(), &mut text);
    for line in text[..n].split_inclusive(|b| *b == b'\n') {
        one(
            &rt,
            &mut states,
            line.strip_suffix(b"\n".as_slice()).unwrap_or(line),
        );
        call_lines::print_end(&rt);
    }
}
