// Taking a broadcast, once it is checked. Definitions: specs/Broadcast.antt of client_broadcast.
#![tactic(auto)]

ghost use Rattle.std.specs.Prelude.{◌≡◌, ◌-◌, ◌*◌, ◌<◌, true, ◌∷◌, [], ◌++◌, drop, replicate};
ghost use Rattle.message.specs.Layout.{max_seq, digest_length};
ghost use Rattle.replica.specs.Replica.{after_of};
ghost use Rattle.client_broadcast.specs.Broadcast.{digest_ok, confirmed_replica, broadcast_step};

use message::Commit;
use replica::{Event, Outcome, Replica, Stepped};

// The chain with its first value gone and the next one in its place.
fn chain_shift(
    chain: [u8; replica::CHAIN_LENGTH],
    next: [u8; message::DIGEST_LENGTH],
) -> [u8; replica::CHAIN_LENGTH]
    ensures { result ≡ next ++ drop (2 * digest_length) chain ++ replicate digest_length 0 }
{
    let mut t = chain;
    shifts::shift(&mut t, message::DIGEST_LENGTH);
    slices::copy_to(&mut t, 0, &next);
    t
}

// The statuses with the first one gone.
fn status_shift(s: [u8; operation::MAX_PENDING]) -> [u8; operation::MAX_PENDING]
    ensures { result ≡ drop 1 s ++ (0 ∷ []) }
{
    let mut t = s;
    shifts::shift(&mut t, 1);
    t
}

// The state after a broadcast whose digest is the next chain value.
fn confirmed_replica(r: Replica, k: Commit) -> Replica
    requires { (r.confirmed < max_seq) × (digest_ok r k ≡ true) }
    ensures { result ≡ confirmed_replica r k }
{
    Replica {
        confirmed: r.confirmed + 1,
        held: r.held.saturating_sub(1),
        chain: chain_shift(r.chain, k.digest),
        statuses: status_shift(r.statuses),
        cells: operation_run::effect_on(k.status == 1, k.op, r.cells),
        ..r
    }
}

// Takes a broadcast (document 01: `BR`).
pub fn broadcast(r: Replica, m: &[u8]) -> Stepped
    ensures { after_of result ≡ broadcast_step r m.now }
{
    match client_broadcast::broadcast_check(&r, m) {
        Ok(k) => Stepped {
            replica: confirmed_replica(r, k),
            outcome: Outcome::Success(Event::Confirmed {
                seq: k.seq,
                status: k.status,
            }),
        },
        Err(why) => replica::stopped(r, why),
    }
}
