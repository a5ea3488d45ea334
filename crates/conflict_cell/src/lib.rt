// The conflict test among operations on one cell, by one number: its value or its temperature.
#![tactic(auto)]

ghost use Rattle.std.specs.Prelude.{◌≡◌, ◌≤◌, true, ◌↔◌, length};
ghost use Rattle.operation.specs.Operation.{max_pending, value, value_response};
ghost use Rattle.conflict_cell.specs.Differs.{Differs};

use operation::Operation;

// Whether some interleaving makes an own answer differ, where all operations are on one cell, whose number is `start`.
// reach[j] has the values that are reached with j own operations run, the own answers so far being as they are alone.
pub fn conflict_at(start: u8, others: &[Operation], own: &[Operation]) -> bool
    requires { (length others.now ≤ max_pending) × (length own.now ≤ max_pending) }
    ensures { (result ≡ true) ↔ Differs value value_response start start others.now own.now }
{
    // "One cell's values reached so far are 256 yes-or-no marks."
    let none = [false; 256];
    let mut reach = [none; 33];
    // The start value, laid out, makes the first row. (A whole row is written, not one mark: the compiler then puts the
    // rows at multiples of 16 bytes, wherever the test is called from. Else a long search takes some 8 in 100 more.)
    let mut wide = [false; 768];
    let x = start as usize;
    wide[x + 256] = true;
    conflict_marks::merge(&mut reach[0], &wide, 256);
    // Over the others' operations: those before `rest` are run, or left out.
    let mut rest = others;
    'search: loop {
        // Over the own operations: j of them, run alone, leave the value u.
        let mut u = start;
        for j in 0..own.len() {
            let w = own[j];
            let expected = operation_run::value_response(w, u);
            conflict_marks::lay_out(&mut wide, &reach[j]);
            // Over the cell's values, entered only where a quick look says that one has another response.
            if conflict_rows::any_other(&wide, w, u) {
                for v in 0..256 {
                    if reach[j][v] {
                        if operation_run::value_response(w, v as u8) != expected {
                            break 'search;
                        }
                    }
                }
            }
            let at = conflict_marks::moved_from(w, expected == 1);
            conflict_rows::run_into(&mut reach[j + 1], &wide, w, at);
            u = operation_run::value_after(w, u);
        }
        let Some((o, tail)) = rest.split_first() else {
            return false;
        };
        conflict_rows::widen(&mut reach, &mut wide, own.len(), *o);
        rest = tail;
    }
    true
}
