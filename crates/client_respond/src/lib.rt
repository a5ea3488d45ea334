// Taking a reply (document 01: `RE`). Definitions: specs/Reply.antt of client_reply.
#![tactic(auto)]

ghost use Rattle.std.specs.Prelude.{◌≡◌, ◌+◌, length};
ghost use Rattle.replica.specs.Replica.{after_of, over};
ghost use Rattle.client_reply.specs.Reply.{reply_step};

use replica::{Outcome, Replica, Stepped};

// Takes a reply (document 01: `RE`).
pub fn reply(r: Replica, m: &[u8], out: &mut [u8]) -> Stepped
    ensures { (after_of result ≡ (reply_step r m.now (length out.old)).after)
        × (out.new ≡ over (reply_step r m.now (length out.old)).wrote out.old) }
{
    let own = match client_reply_items::reply_check(&r, m, out.len()) {
        Ok(own) => own,
        Err(why) => return replica::stopped(r, why),
    };
    let n = m[message::COUNT_OFFSET];
    let v = client_reply::decide(&r, m, n as usize);
    let chain = client_commit::chain_to(&r, m, n as usize);
    client_commit::write_own_commit(&r, own, &chain, n, v.aborted, out);
    Stepped {
        replica: client_commit::replied_replica(r, chain, n, v.aborted),
        outcome: Outcome::Success(client_commit::says(v, r.confirmed + n as u32)),
    }
}
