// A client takes a broadcast from its line. Definitions: specs/Trial.antt of trial_core.
#![tactic(auto)]

ghost use Rattle.std.specs.Prelude.{◌≡◌, List, true, ℕ, ◌<◌};
ghost use Rattle.message.specs.Layout.{client_count};
ghost use Rattle.trial_core.specs.Trial.{broadcast_first, broadcast_move, replica_of};
ghost use Rattle.trial_core.specs.Moves.{move_of, lent_of};

use trial_core::{Moved, Trial};

// Client `i` + 1 takes the broadcast at the head of its line.
pub fn deliver_broadcast(t: &Trial, i: usize, log: &[u8; trial_core::LOG_LENGTH]) -> Moved
    requires { (i < client_count) × (broadcast_first t.now.lines i t.now.server.passed ≡ true) }
    ensures { (replies : List ℕ) (invokes : List ℕ) → move_of result (lent_of log.now replies invokes)
        ≡ broadcast_move (replica_of t.now i) t.now.server t.now.lines i (lent_of log.now replies invokes) }
{
    let at = t.lines.next[i] as usize % trial_core::LOG_SIZE * message::COMMIT_LENGTH;
    let mut out = [0u8; message::COMMIT_LENGTH];
    let q = client::receive(
        t.replica(i),
        &log[at..at + message::COMMIT_LENGTH],
        &mut out,
    );
    let said = trial_outcome::told_said(q.outcome);
    if trial_outcome::is_success(q.outcome) {
        Moved {
            replica: q.replica,
            server: t.server,
            lines: trial_queue::without_broadcast(t.lines, i, t.server.passed),
            said,
        }
    } else {
        Moved {
            replica: q.replica,
            server: t.server,
            lines: t.lines,
            said,
        }
    }
}
