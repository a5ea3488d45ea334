// The client's calls (document 01: the van's): opening, invoking, and taking a message from the server.
#![tactic(auto)]

ghost use Rattle.std.specs.Prelude.{◌≡◌, length};
ghost use Rattle.replica.specs.Replica.{after_of, over};
ghost use Rattle.client_open.specs.Open.{open_step};
ghost use Rattle.client_invoke.specs.Invoke.{invoke_step};
ghost use Rattle.client.specs.Receive.{receive_step};

use replica::{Replica, Stepped};

// Opens a client.
pub fn open(number: u8, keys: &[u8]) -> Stepped
    ensures { after_of result ≡ open_step number keys.now }
{
    client_open::open(number, keys)
}

// Invokes an operation; the invoke goes to the front of `out`.
pub fn invoke(r: Replica, kind: u8, cell: u8, amount: u8, last: u8, out: &mut [u8]) -> Stepped
    ensures { (after_of result ≡ (invoke_step r kind cell amount last (length out.old)).after)
        × (out.new ≡ over (invoke_step r kind cell amount last (length out.old)).wrote out.old) }
{
    client_make::invoke(r, kind, cell, amount, last, out)
}

// Takes a message from the server; the commit that a reply calls for goes to the front of `out`.
pub fn receive(r: Replica, m: &[u8], out: &mut [u8]) -> Stepped
    ensures { (after_of result ≡ (receive_step r m.now (length out.old)).after)
        × (out.new ≡ over (receive_step r m.now (length out.old)).wrote out.old) }
{
    if message::is_reply(m) {
        client_respond::reply(r, m, out)
    } else {
        client_confirm::broadcast(r, m)
    }
}
