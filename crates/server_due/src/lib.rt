// How many broadcasts are due (document 01: "while place b + 1 has its commit"). Definition: leading of server's specs/Server.antt.
#![tactic(auto)]

ghost use Rattle.std.specs.Prelude.{◌≡◌, ◌<◌, ◌≤◌, length, set};
ghost use Rattle.operation.specs.Operation.{max_pending};
ghost use Rattle.server.specs.Server.{leading, due_count};

use server::Server;

// How many bytes from the first on are not zero.
fn leading(statuses: &[u8]) -> usize
    ensures { (result ≡ leading statuses.now) × (result ≤ length statuses.now) }
{
    statuses
        .iter()
        .position(|x| *x == 0)
        .unwrap_or(statuses.len())
}

// How many slots from the first on have a commit.
pub fn due(s: &Server) -> usize
    ensures { (result ≡ due_count s.now) × (result ≤ max_pending) }
{
    leading(&s.statuses)
}

// How many would have one, with the status of slot `j` set.
pub fn due_with(s: &Server, j: usize, status: u8) -> usize
    requires { j < max_pending }
    ensures { (result ≡ leading (set s.now.statuses j status)) × (result ≤ max_pending) }
{
    let mut t = s.statuses;
    t[j] = status;
    leading(&t)
}
