// A client opened and a fresh server, for C, C++ and Rust programs to link: include/cop.h declares them.
#![tactic(auto)]

ghost use Rattle.std.specs.Prelude.{◌≡◌};
ghost use Rattle.client_open.specs.Open.{open_step};
ghost use Rattle.server.specs.Server.{fresh_server};
ghost use Rattle.cop_said.specs.Said.{said};

use cop_said::Said;
use replica::Replica;
use server::Server;

// A client's state after its opening, and what the opening says.
#[repr(C)]
#[derive(Clone, Copy)]
pub struct Opened {
    pub replica: Replica,
    pub said: Said,
}

// Opens a client.
#[unsafe(no_mangle)]
pub extern "C" fn cop_open(number: u8, keys: &[u8]) -> Opened
    ensures { (result.replica ≡ (open_step number keys.now).replica) × (result.said ≡ said (open_step number keys.now).says) }
{
    let s = client::open(number, keys);
    Opened {
        replica: s.replica,
        said: cop_said::client_said(s.outcome),
    }
}

// A fresh server.
#[unsafe(no_mangle)]
pub extern "C" fn cop_fresh_server() -> Server
    ensures { result ≡ fresh_server }
{
    server::fresh()
}
