// The form and content of a message to the server: check 30 (document 01). Definitions: specs/Server.antt of server.
#![tactic(auto)]

ghost use Rattle.std.specs.Prelude.{◌≡◌};
ghost use Rattle.server.specs.Server.{whole_invoke, whole_commit};

// Whether the bytes are an invoke whose operation and author are allowed.
#[tactic(auto, unfolding(server::specs::Server::whole_invoke, server::specs::Server::item_ok, message::specs::Readers::read_invoke))]
pub fn whole_invoke(m: &[u8]) -> bool
    ensures { result ≡ whole_invoke m.now }
{
    message::read_invoke(m).is_some_and(|i| message::content_ok(i.op, i.author))
}

// Whether the bytes are a commit whose operation, author and status are allowed.
#[tactic(auto, unfolding(server::specs::Server::whole_commit, message::specs::Readers::read_commit))]
pub fn whole_commit(m: &[u8]) -> bool
    ensures { result ≡ whole_commit m.now }
{
    message::read_commit(m).is_some_and(message::commit_ok)
}
