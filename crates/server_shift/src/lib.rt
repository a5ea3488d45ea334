// The slots once the first ones are passed on (document 01: "Places passed on serve again"). Definition: passed_server of server's specs/Server.antt.
#![tactic(auto)]

ghost use Rattle.std.specs.Prelude.{◌≡◌, ◌≤◌};
ghost use Rattle.operation.specs.Operation.{max_pending};
ghost use Rattle.message.specs.Layout.{max_seq};
ghost use Rattle.server.specs.Server.{passed_server};

use server::Server;

// Passes the first `n` slots on: the others move up, zeros after them.
#[tactic(auto, unfolding(server::specs::Server::passed_server))]
pub fn pass_on(s: &mut Server, n: usize)
    requires { (s.old.passed ≤ max_seq) × (n ≤ max_pending) }
    ensures { s.new ≡ passed_server s.old n }
{
    s.passed += n as u32;
    shifts::shift(&mut s.items, n * message::ITEM_LENGTH);
    shifts::shift(&mut s.statuses, n);
    shifts::shift(&mut s.digests, n * message::DIGEST_LENGTH);
    shifts::shift(&mut s.tags, n * message::TAG_LENGTH);
}
