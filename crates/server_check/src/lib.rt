// All the checks of the server's call, in their order. Definition: server_no of server's specs/Server.antt.
#![tactic(auto)]

ghost use Rattle.std.specs.Prelude.{◌≡◌};
ghost use Rattle.server.specs.Server.{no_of, server_no};

use server::{Server, ServerRefusal};

// The first check with a no decides, for a message on the line of a client, with `room` bytes lent.
pub fn check(s: &Server, line: u8, m: &[u8], room: usize) -> Result<(), ServerRefusal>
    ensures { no_of result ≡ server_no s.now line m.now room }
{
    server_line::line_check(s, line, m)?;
    if message::is_invoke(m) {
        let i = message::read_item(m, message::MARK_LENGTH);
        server_invoke_check::placing_check(s, i, room)
    } else {
        let k = message::commit_of(m);
        server_commit_check::commit_check(s, k, room)
    }
}
