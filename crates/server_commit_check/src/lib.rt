// The checks of a commit: 35, 36 and 7. Definitions: specs/Server.antt of server.
#![tactic(auto)]

ghost use Rattle.std.specs.Prelude.{◌≡◌, ◌≤◌};
ghost use Rattle.operation.specs.Operation.{max_pending};
ghost use Rattle.message.specs.Layout.{max_seq};
ghost use Rattle.checks.specs.Checks.{first_no};
ghost use Rattle.server.specs.Server.{pending, no_of, place_ok, commit_checks};

use message::Commit;
use server::{Server, ServerRefusal};

// Whether the commit's sequence number waits, with that operation and author.
fn place_ok(s: &Server, k: Commit) -> bool
    requires { (s.now.passed ≤ s.now.placed) × (s.now.placed ≤ max_seq) × (pending s.now ≤ max_pending) }
    ensures { result ≡ place_ok s.now k }
{
    let first = s.passed + 1;
    let j = k.seq.saturating_sub(first) as usize;
    if j < operation::MAX_PENDING {
        let i = message::read_item(&s.items, j * message::ITEM_LENGTH);
        (first <= k.seq)
            & (k.seq <= s.placed)
            & operation::same_op(i.op, k.op)
            & (i.author == k.author)
    } else {
        false
    }
}

// The checks, in their order.
#[tactic(auto, unfolding(server::specs::Server::slot_status, server::specs::Server::stored_server))]
pub fn commit_check(s: &Server, k: Commit, room: usize) -> Result<(), ServerRefusal>
    requires { (s.now.passed ≤ s.now.placed) × (s.now.placed ≤ max_seq) × (pending s.now ≤ max_pending) }
    ensures { no_of result ≡ first_no 0 (commit_checks s.now k room) }
{
    if place_ok(s, k) {
        let j = (k.seq - (s.passed + 1)) as usize;
        let n = server_due::due_with(s, j, server_commit::stored_status(k.status));
        checks::ask(s.statuses[j] == 0, ServerRefusal::Committed)?;
        checks::ask(n * message::COMMIT_LENGTH <= room, ServerRefusal::Room)
    } else {
        Err(ServerRefusal::Place)
    }
}
