// What the log program prints for a line, written. Definitions: specs/Text.antt. With no heap, each function writes into the caller's
// buffer from `at` on, and answers the place after it.
#![tactic(auto)]

ghost use Rattle.std.specs.Prelude.{◌≡◌, ◌+◌, ◌≤◌, [], ◌∷◌, ◌++◌, length};
ghost use Rattle.slices.specs.Bytes.{put};
ghost use Rattle.text_put.specs.Datum.{datum};
ghost use Rattle.meter_log.specs.Reading.{refusal_no};
ghost use Rattle.meter_log_put.specs.Text.{op_text, told_text, told_bytes};

use meter_log::Refusal;
use meter_log_told::LineTold;
use operation::Operation;

fn put_op(out: &mut [u8], at: usize, e: Operation) -> usize
    requires { at + 38 ≤ length out.old }
    ensures { (result ≡ at + length (op_text e)) × (out.new ≡ put out.old at (op_text e)) × (result ≤ at + 38) }
{
    let i = text::decimal(out, at, e.kind as u64);
    let j = text_put::put_datum(out, i, e.cell as u32);
    let k = text_put::put_datum(out, j, e.amount as u32);
    text_put::put_signed(out, k, operation_run::signed_of(e.last))
}

fn put_refused(out: &mut [u8], at: usize, why: Refusal) -> usize
    requires { at + 13 ≤ length out.old }
    ensures { (result ≡ at + length ((110 ∷ 111 ∷ []) ++ datum (refusal_no why)))
        × (out.new ≡ put out.old at ((110 ∷ 111 ∷ []) ++ datum (refusal_no why)))
        × (result ≤ at + 13) }
{
    let i = text_put::put_bytes(out, at, b"no");
    text_put::put_datum(out, i, u32::from(why.number()))
}

// What is told of a line.
fn put_text(out: &mut [u8], at: usize, told: LineTold) -> usize
    requires { at + 38 ≤ length out.old }
    ensures { (result ≡ at + length (told_text told)) × (out.new ≡ put out.old at (told_text told)) × (result ≤ at + 38) }
{
    match told {
        LineTold::Header => text_put::put_bytes(out, at, b"header"),
        LineTold::Made(e) => put_op(out, at, e),
        LineTold::Refused(why) => put_refused(out, at, why),
        LineTold::Long => text_put::put_bytes(out, at, b"long"),
    }
}

// The line that is printed. 64 bytes are enough.
pub fn put_told(out: &mut [u8], at: usize, number: u64, told: LineTold) -> usize
    requires { at + 64 ≤ length out.old }
    ensures { (result ≡ at + length (told_bytes number told))
        × (out.new ≡ put out.old at (told_bytes number told))
        × (result ≤ at + 64) }
{
    let i = text::decimal(out, at, number);
    let j = text_put::put_bytes(out, i, b" ");
    let k = put_text(out, j, told);
    text_put::put_bytes(out, k, b"\n")
}
