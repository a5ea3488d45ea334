// Operations run on cells and temperatures: what each does, and its response. Definitions: specs/Operation.antt of operation.
#![tactic(auto)]

ghost use Rattle.std.specs.Prelude.{◌≡◌, ◌+◌, ◌≤◌, take, set};
ghost use Rattle.operation.specs.Operation.{max_pending, signed, number_at, value, temp, failed, value_response, response, after, response_on, effect, run_all};

use operation::{Cells, Kind, Operation, Response};

// What the operation's cell holds after it, where it held `v`. (By numbers here, in `value_response` and in the marks of
// the conflict test: with matches on the kind its slowest case takes some 8 in 100 more.)
pub fn value_after(e: Operation, v: u8) -> u8
    ensures { result ≡ value e v }
{
    let kind = e.kind;
    let amount = e.amount;
    let adds = kind == 1;
    if adds {
        if v as u32 + amount as u32 <= 255 {
            v + amount
        } else {
            v
        }
    } else if kind == 2 {
        if amount <= v { v - amount } else { v }
    } else if (kind == 4) | (kind == 5) {
        amount
    } else {
        v
    }
}

// The temperature of the operation's cell after it, where it was `t`.
#[tactic(auto, unfolding(operation::specs::Operation::temp))]
fn temp_after(e: Operation, t: u8) -> u8
    ensures { result ≡ temp e t }
{
    match Kind::of(e.kind) {
        Some(Kind::SetWithTemp) => e.last,
        _ => t,
    }
}

// What is answered by an add or take that fails, where its cell holds `v`.
fn failed_at(v: u8) -> u16
    ensures { result ≡ failed v }
{
    256 + v as u16
}

// What is answered by the value `v` of the operation's cell: the response of every kind but 6.
pub fn value_response(e: Operation, v: u8) -> u16
    ensures { result ≡ value_response e v }
{
    let kind = e.kind;
    let amount = e.amount;
    if kind == 1 {
        if v as u32 + amount as u32 <= 255 {
            1
        } else {
            failed_at(v)
        }
    } else if kind == 2 {
        if amount <= v { 1 } else { failed_at(v) }
    } else if kind == 3 {
        v as u16
    } else {
        1
    }
}

// The number that a byte stands for, in two's complement.
pub fn signed_of(b: u8) -> Response
    ensures { result ≡ signed b }
{
    let z = b as i16;
    let low = b < 128;
    if low { z } else { z - 256 }
}

// The operation's response, where its cell holds `v` and has the temperature `t`.
fn response_to(e: Operation, v: u8, t: u8) -> Response
    ensures { result ≡ response e v t }
{
    match Kind::of(e.kind) {
        Some(Kind::ReadTemp) => signed_of(t),
        _ => value_response(e, v) as i16,
    }
}

// The number at `i`, and 0 where there is none.
fn number_at(s: [u8; operation::CELL_COUNT], i: u8) -> u8
    ensures { result ≡ number_at s i }
{
    s.get(i as usize).copied().unwrap_or(0)
}

// The numbers with `x` at `i`, and as they are where there is no such place.
fn with_number(s: [u8; operation::CELL_COUNT], i: u8, x: u8) -> [u8; operation::CELL_COUNT]
    ensures { result ≡ set s i x }
{
    let k = i as usize;
    if k < operation::CELL_COUNT {
        let mut t = s;
        t[k] = x;
        t
    } else {
        s
    }
}

// The cells after the operation; one on a cell that is not there changes nothing.
pub fn run_on(e: Operation, cells: Cells) -> Cells
    ensures { result ≡ after e cells }
{
    let Cells { values, temps } = cells;
    let k = e.cell;
    let v = value_after(e, number_at(values, k));
    let t = temp_after(e, number_at(temps, k));
    let new_values = with_number(values, k, v);
    let new_temps = with_number(temps, k, t);
    Cells {
        values: new_values,
        temps: new_temps,
    }
}

// The operation's response on the cells.
pub fn response_on(e: Operation, cells: Cells) -> Response
    ensures { result ≡ response_on e cells }
{
    response_to(
        e,
        number_at(cells.values, e.cell),
        number_at(cells.temps, e.cell),
    )
}

// The cells after an operation with its status: an aborted one changes nothing.
#[tactic(auto, unfolding(operation::specs::Operation::effect))]
pub fn effect_on(success: bool, e: Operation, cells: Cells) -> Cells
    ensures { result ≡ effect «success» e cells }
{
    if success { run_on(e, cells) } else { cells }
}

// The cells after the operations.
pub fn run_all(es: &[Operation], cells: Cells) -> Cells
    ensures { result ≡ run_all es.now cells }
{
    let mut after = cells;
    for e in es {
        after = run_on(*e, after);
    }
    after
}
