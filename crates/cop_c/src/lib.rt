// The client's and the server's calls, the digest and the tag, for C, C++ and Rust programs to link: include/cop.h declares them. The caller
// keeps the state of a client or a server, and a call updates it in place. What a call says is four numbers (specs/Said.antt of cop_said).
#![tactic(auto)]

ghost use Rattle.std.specs.Prelude.{◌≡◌, length};
ghost use Rattle.replica.specs.Replica.{over};
ghost use Rattle.client_open.specs.Open.{open_step};
ghost use Rattle.client_invoke.specs.Invoke.{invoke_step};
ghost use Rattle.client.specs.Receive.{receive_step};
ghost use Rattle.server.specs.Server.{fresh_server, server_step};
ghost use Rattle.sha256.specs.Sha256.{digest_no, digest_out};
ghost use Rattle.hmac.specs.Hmac.{tag_no, tag_out};
ghost use Rattle.cop_said.specs.Said.{said, server_said};

use cop_said::Said;
use cop_start::Opened;
use replica::Replica;
use server::Server;

// Opens a client.
#[unsafe(no_mangle)]
pub extern "C" fn cop_open(number: u8, keys: &[u8]) -> Opened
    ensures { (result.replica ≡ (open_step number keys.now).replica) × (result.said ≡ said (open_step number keys.now).says) }
{
    cop_start::cop_open(number, keys)
}

// Invokes an operation on the lent replica; the invoke goes to the front of `out`.
#[unsafe(no_mangle)]
pub extern "C" fn cop_invoke(
    r: &mut Replica,
    kind: u8,
    cell: u8,
    amount: u8,
    last: u8,
    out: &mut [u8],
) -> Said
    ensures { (r.new ≡ (invoke_step r.old kind cell amount last (length out.old)).after.replica)
        × (result ≡ said (invoke_step r.old kind cell amount last (length out.old)).after.says)
        × (out.new ≡ over (invoke_step r.old kind cell amount last (length out.old)).wrote out.old) }
{
    cop_said::client_said(client_mut::invoke(r, kind, cell, amount, last, out))
}

// Takes a message from the server on the lent replica; the commit that a reply calls for goes to the front of `out`.
#[unsafe(no_mangle)]
pub extern "C" fn cop_receive(r: &mut Replica, m: &[u8], out: &mut [u8]) -> Said
    ensures { (r.new ≡ (receive_step r.old m.now (length out.old)).after.replica)
        × (result ≡ said (receive_step r.old m.now (length out.old)).after.says)
        × (out.new ≡ over (receive_step r.old m.now (length out.old)).wrote out.old) }
{
    cop_said::client_said(client_mut::receive(r, m, out))
}

// A fresh server.
#[unsafe(no_mangle)]
pub extern "C" fn cop_fresh_server() -> Server
    ensures { result ≡ fresh_server }
{
    cop_start::cop_fresh_server()
}

// Takes a message on the line of a client on the lent server; what it calls for goes to the front of `out`.
#[unsafe(no_mangle)]
pub extern "C" fn cop_serve(s: &mut Server, line: u8, m: &[u8], out: &mut [u8]) -> Said
    ensures { (s.new ≡ (server_step s.old line m.now (length out.old)).server)
        × (result ≡ server_said (server_step s.old line m.now (length out.old)).says)
        × (out.new ≡ over (server_step s.old line m.now (length out.old)).wrote out.old) }
{
    cop_said::server_said(server_mut::receive(s, line, m, out))
}

// The digest: 32 bytes to `out` and 0, or 9 and `out` as it was.
#[unsafe(no_mangle)]
pub extern "C" fn cop_digest(input: &[u8], out: &mut [u8; 32]) -> u32
    ensures { (result ≡ digest_no input.now) × (out.new ≡ digest_out input.now out.old) }
{
    cop_digest::cop_digest(input, out)
}

// The tag: 32 bytes to `out` and 0, or 9 and `out` as it was.
#[unsafe(no_mangle)]
pub extern "C" fn cop_tag(key: &[u8], input: &[u8], out: &mut [u8; 32]) -> u32
    ensures { (result ≡ tag_no key.now input.now) × (out.new ≡ tag_out key.now input.now out.old) }
{
    cop_digest::cop_tag(key, input, out)
}
