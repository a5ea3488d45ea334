// The checks of a broadcast. Definitions of taking one: specs/Broadcast.antt.
#![tactic(auto)]

ghost use Rattle.std.specs.Prelude.{◌≡◌, ◌+◌, Ok};
ghost use Rattle.message.specs.Message.{commit_of};
ghost use Rattle.message.specs.declared.Commit.{Commit};
ghost use Rattle.replica.specs.Outcome.{no_of};
ghost use Rattle.client_broadcast.specs.Broadcast.{seq_ok, next_value, broadcast_no};

use message::Commit;
use replica::{Halt, Replica, Stop};

fn seq_ok(r: &Replica, k: Commit) -> bool
    ensures { result ≡ seq_ok r.now k }
{
    (k.seq as u64 == r.confirmed as u64 + 1) & (k.seq <= message::MAX_SEQ)
}

// The chain value at the next sequence number.
#[tactic(auto, unfolding(crate::specs::Broadcast::next_value))]
fn next_value(r: &Replica, k: Commit) -> [u8; message::DIGEST_LENGTH]
    ensures { result ≡ next_value r.now k }
{
    if r.held == 0 {
        let v = replica::value_at(r.confirmed, 0, &r.chain);
        verify::link_value(v, k.op, k.seq, k.author)
    } else {
        replica::value_at(r.confirmed, 1, &r.chain)
    }
}

// All the checks of a broadcast, in their order; its commit where none has a no.
#[tactic(auto, unfolding(crate::specs::Broadcast::broadcast_no, crate::specs::Broadcast::digest_ok))]
pub fn broadcast_check(r: &Replica, m: &[u8]) -> Result<Commit, Stop>
    ensures { (no_of result ≡ broadcast_no r.now m.now) × ((k : Commit) → result ≡ Ok k → k ≡ commit_of m.now) }
{
    replica_range::ready(r)?;
    checks::ask(message::is_broadcast(m), Halt::Form)?;
    let k = message::commit_of(m);
    checks::ask(message::commit_ok(k), Halt::Content)?;
    checks::ask(seq_ok(r, k), Halt::Seq)?;
    checks::ask(verify::commit_tag_ok(&r.keys, k), Halt::Tag)?;
    checks::ask(slices::equal(&k.digest, &next_value(r, k)), Halt::Chain)?;
    Ok(k)
}
