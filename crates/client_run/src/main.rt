// Runs the calls that standard input lists on four replicas, and prints a line for each: tests/client_run.py has the
// form of both. Nothing is claimed but that it is safe and ends; what it prints is held to the file stdout.
#![tactic(auto)]

ghost use Rattle.std.specs.Prelude.{◌+◌, ◌≤◌, ◌<◌};

use operation::{Cells, Operation, Response};
use replica::{Event, Outcome, Replica, Stepped};

// The bytes of a replica: each field in its order, numbers in four bytes.
const SIZE: usize = 1398;

// The place of a replica: that of the last one for a number above 3.
fn slot(line: &[u8], k: usize) -> usize
    ensures { result < 4 }
{
    call_lines::number_at(line, k, 3) as usize
}

// Printing

// The word, the sequence number and the response, which has a minus sign where it is negative.
fn print_answer<R: Print>(rt: &R, seq: u32, response: Response) {
    call_lines::print_one(rt, b"answer", seq as u64);
    if response < 0 {
        call_lines::print(rt, b" -");
    } else {
        call_lines::print(rt, b" ");
    }
    call_lines::print_decimal(rt, response.unsigned_abs() as u64);
}

fn print_event<R: Print>(rt: &R, event: Event) {
    match event {
        Event::Opened => call_lines::print(rt, b"opened"),
        Event::Invoked(count) => call_lines::print_one(rt, b"made", count as u64),
        Event::Responded { seq, response } => print_answer(rt, seq, response),
        Event::Aborted { seq } => call_lines::print_one(rt, b"aside", seq as u64),
        Event::Confirmed { seq, status } => call_lines::print_two(
            rt,
            b"confirm",
            seq as u64,
            status as u64,
        ),
    }
}

fn print_outcome<R: Print>(rt: &R, outcome: Outcome) {
    match outcome {
        Outcome::Success(event) => print_event(rt, event),
        Outcome::Refused(why) => call_lines::print_one(rt, b"no", why.number() as u64),
        Outcome::Halted(why) => call_lines::print_one(rt, b"halt", why.number() as u64),
    }
}

// A replica in bytes

// The number in the four bytes from `at` on.
fn number_of(state: &[u8; SIZE], at: usize) -> u32
    requires { at + 4 ≤ 1398 }
{
    u32::from_be_bytes(call_lines::part(state, at))
}

fn replica_of(state: &[u8; SIZE]) -> Replica {
    Replica {
        number: state[0],
        keys: call_lines::part(state, 1),
        count: number_of(state, 257),
        current: operation::read_op(state, 261),
        confirmed: number_of(state, 269),
        held: number_of(state, 273),
        chain: call_lines::part(state, 277),
        statuses: call_lines::part(state, 1333),
        cells: Cells {
            values: call_lines::part(state, 1365),
            temps: call_lines::part(state, 1381),
        },
        halt: state[1397],
    }
}

fn store(state: &mut [u8; SIZE], r: Replica) {
    state[0] = r.number;
    state[1..257].copy_from_slice(&r.keys);
    state[257..261].copy_from_slice(&r.count.to_be_bytes());
    state[261..269].copy_from_slice(&operation::op_bytes(r.current));
    state[269..273].copy_from_slice(&r.confirmed.to_be_bytes());
    state[273..277].copy_from_slice(&r.held.to_be_bytes());
    state[277..1333].copy_from_slice(&r.chain);
    state[1333..1365].copy_from_slice(&r.statuses);
    state[1365..1381].copy_from_slice(&r.cells.values);
    state[1381..1397].copy_from_slice(&r.cells.temps);
    state[1397] = r.halt;
}

// Calls

fn open(line: &[u8]) -> Stepped {
    let number = call_lines::byte_at(line, 2);
    let mut keys = [0u8; 4096];
    let n = call_lines::bytes_at(line, 3, &mut keys);
    client::open(number, &keys[0..n])
}

fn invoke(r: Replica, line: &[u8], out: &mut [u8]) -> Stepped {
    let kind = call_lines::byte_at(line, 3);
    let cell = call_lines::byte_at(line, 4);
    let amount = call_lines::byte_at(line, 5);
    let last = call_lines::byte_at(line, 6);
    client::invoke(r, kind, cell, amount, last, out)
}

fn receive(r: Replica, line: &[u8], out: &mut [u8]) -> Stepped {
    let mut m = [0u8; 4096];
    let n = call_lines::bytes_at(line, 4, &mut m);
    client::receive(r, &m[0..n], out)
}

fn step(r: Replica, line: &[u8], letter: u8, out: &mut [u8]) -> Stepped {
    if letter == b'i' {
        invoke(r, line, out)
    } else {
        receive(r, line, out)
    }
}

// The place of the word that says how many bytes are lent.
fn room_word(letter: u8) -> usize {
    if letter == b'i' { 7 } else { 3 }
}

// The call with the first bytes lent, as many as the line says.
fn step_in(r: Replica, line: &[u8], letter: u8, out: &mut [u8; 128]) -> Stepped {
    let room = call_lines::number_at(line, room_word(letter), 128) as usize;
    step(r, line, letter, &mut out[..room])
}

// Prints the outcome, keeps the replica, and prints its digest.
fn keep_state<R: Print>(rt: &R, state: &mut [u8; SIZE], stepped: Stepped) {
    print_outcome(rt, stepped.outcome);
    store(state, stepped.replica);
    call_lines::print_digest(rt, state);
}

fn call<R: Print>(rt: &R, states: &mut [[u8; SIZE]; 4], line: &[u8], letter: u8) {
    let r = replica_of(&states[slot(line, 1)]);
    let mut out = [0xaa; 128];
    let stepped = step_in(r, line, letter, &mut out);
    keep_state(rt, &mut states[slot(line, 2)], stepped);
    call_lines::print_digest(rt, &out);
}

// A line's first letter says what it asks.
fn one<R: Print>(rt: &R, states: &mut [[u8; SIZE]; 4], line: &[u8]) {
    match call_lines::first_letter(line) {
        b'#' => call_lines::print(rt, line),
        b'o' => keep_state(rt, &mut states[slot(line, 1)], open(line)),
        b'c' => {
            let to = slot(line, 2);
            states[to] = states[slot(line, 1)];
            call_lines::change(rt, &mut states[to], line);
        }
        letter => call(rt, states, line, letter),
    }
}

fn main(rt: HostRuntime) {
    let mut states = [[0u8; SIZE]; 4];
    let mut text = call_lines::text_buffer();
    let n = call_lines::read_full(&mut rt.stdin(), &mut text);
    for line in text[..n].split_inclusive(|b| *b == b'\n') {
        one(
            &rt,
            &mut states,
            line.strip_suffix(b"\n".as_slice()).unwrap_or(line),
        );
        call_lines::print_end(&rt);
    }
}
