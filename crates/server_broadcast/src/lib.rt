// The broadcasts of what is due (document 01: the relay's `BR`s). Definitions: specs/Server.antt of server.
#![tactic(auto)]

ghost use Rattle.std.specs.Prelude.{◌≡◌, ◌++◌, ◌*◌, ◌<◌, ◌≤◌, length, drop};
ghost use Rattle.operation.specs.Operation.{max_pending};
ghost use Rattle.message.specs.Layout.{max_seq, commit_length};
ghost use Rattle.server.specs.Server.{slot_commit, sent_status, broadcasts};

use message::Commit;
use server::Server;

// A stored status as a message has it.
fn sent_status(status: u8) -> u8
    ensures { result ≡ sent_status status }
{
    u8::from(status == 1)
}

// The commit of slot `k`.
#[tactic(auto, unfolding(server::specs::Server::slot_commit, server::specs::Server::slot_item, server::specs::Server::slot_status, server::specs::Server::slot_digest, server::specs::Server::slot_tag))]
fn slot_commit(s: &Server, k: usize) -> Commit
    requires { (s.now.passed ≤ max_seq) × (k < max_pending) }
    ensures { result ≡ slot_commit s.now k }
{
    let item = message::read_item(&s.items, k * message::ITEM_LENGTH);
    Commit {
        op: item.op,
        author: item.author,
        seq: s.passed + 1 + k as u32,
        digest: slices::part(&s.digests, k * message::DIGEST_LENGTH),
        status: sent_status(s.statuses[k]),
        tag: slices::part(&s.tags, k * message::TAG_LENGTH),
    }
}

// Writes the broadcasts of the first `n` slots.
#[tactic(auto, unfolding(server::specs::Server::broadcasts))]
pub fn write_broadcasts(out: &mut [u8], s: &Server, n: usize)
    requires { (s.now.passed ≤ max_seq) × (n ≤ max_pending) × (n * commit_length ≤ length out.old) }
    ensures { out.new ≡ broadcasts s.now n ++ drop (n * commit_length) out.old }
{
    for k in 0..n {
        message_write::write_broadcast(out, k * message::COMMIT_LENGTH, slot_commit(s, k));
    }
}
