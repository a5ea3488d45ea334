// Check 8 for the slots not in use (document 01: "unused slots zero"). Definition: unused_ok of server's specs/Server.antt.
#![tactic(auto)]

ghost use Rattle.std.specs.Prelude.{◌≡◌, ◌≤◌};
ghost use Rattle.operation.specs.Operation.{max_pending};
ghost use Rattle.server.specs.Server.{unused_ok};

use server::Server;

// Whether the slots past the first `n` are zero.
#[tactic(auto, unfolding(server::specs::Server::unused_ok))]
pub fn unused_ok(s: &Server, n: usize) -> bool
    requires { n ≤ max_pending }
    ensures { result ≡ unused_ok s.now n }
{
    let i = slices::zero_from(&s.items, n * message::ITEM_LENGTH);
    let u = slices::zero_from(&s.statuses, n);
    let d = slices::zero_from(&s.digests, n * message::DIGEST_LENGTH);
    let t = slices::zero_from(&s.tags, n * message::TAG_LENGTH);
    i & u & d & t
}
