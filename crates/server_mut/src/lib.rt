// The server's call on a state that the caller lends: it updates it in place.
#![tactic(auto)]

ghost use Rattle.std.specs.Prelude.{◌≡◌, length};
ghost use Rattle.replica.specs.Replica.{over};
ghost use Rattle.server.specs.Server.{told, server_step};

use server::{Server, ServerOutcome};

// Takes a message on the line of a client; what it calls for goes to the front of `out`.
pub fn receive(s: &mut Server, line: u8, m: &[u8], out: &mut [u8]) -> ServerOutcome
    ensures { (s.new ≡ (server_step s.old line m.now (length out.old)).server)
        × (told result ≡ (server_step s.old line m.now (length out.old)).says)
        × (out.new ≡ over (server_step s.old line m.now (length out.old)).wrote out.old) }
{
    let t = server_receive::receive(*s, line, m, out);
    *s = t.server;
    t.outcome
}
