// The checks of both messages: 8, 30 and 31. Definitions: specs/Server.antt of server.
#![tactic(auto)]

ghost use Rattle.std.specs.Prelude.{◌≡◌, get_or};
ghost use Rattle.message.specs.Layout.{author_offset};
ghost use Rattle.checks.specs.Checks.{first_no};
ghost use Rattle.server.specs.Server.{no_of, line_checks};

use server::{Server, ServerRefusal};

// The author of an invoke or a commit.
fn author_of(m: &[u8]) -> u8
    ensures { result ≡ get_or m.now author_offset 0 }
{
    m.get(message::AUTHOR_OFFSET).copied().unwrap_or(0)
}

// The checks, in their order.
pub fn line_check(s: &Server, line: u8, m: &[u8]) -> Result<(), ServerRefusal>
    ensures { no_of result ≡ first_no 0 (line_checks s.now line m.now) }
{
    checks::ask(server_range::in_range(s), ServerRefusal::Range)?;
    checks::ask(
        server_form::whole_invoke(m) || server_form::whole_commit(m),
        ServerRefusal::Form,
    )?;
    checks::ask(author_of(m) == line, ServerRefusal::Line)
}
