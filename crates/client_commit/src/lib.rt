// What a reply leaves: the chain, the commit and the state after it. Definitions: specs/Reply.antt of client_reply.
#![tactic(auto)]

ghost use Rattle.std.specs.Prelude.{◌≡◌, ◌+◌, ◌*◌, ◌<◌, ◌≤◌, ◌++◌, length, drop};
ghost use Rattle.operation.specs.Operation.{max_pending};
ghost use Rattle.message.specs.Layout.{max_seq, item_length, reply_head, commit_length};
ghost use Rattle.replica.specs.Outcome.{event_told};
ghost use Rattle.client_reply.specs.Reply.{chain_item, chain_to, says_of, status, held_status, larger, replied_replica, commit_message};
ghost use Rattle.key_table.specs.KeyTable.{StateOf};

use client_reply::Verdict;
use hmac::Keyed;
use message::{Commit, Item};
use replica::{Event, Replica};

// The value of item `k` held in the chain, where it is not yet.
#[tactic(auto, unfolding(client_reply::specs::Reply::chain_item))]
fn chain_item(r: &Replica, k: usize, i: Item, chain: &mut [u8; replica::CHAIN_LENGTH])
    requires { (k < max_pending) × (r.now.confirmed ≤ max_seq) }
    ensures { chain.new ≡ chain_item r.now.confirmed r.now.held k i chain.old }
{
    if r.held as usize <= k {
        let v = client_reply_check::item_value(r.confirmed, k, i, chain);
        slices::copy_to(chain, (k + 1) * message::DIGEST_LENGTH, &v);
    }
}

// The chain with the values of the first `n` items.
pub fn chain_to(r: &Replica, m: &[u8], n: usize) -> [u8; replica::CHAIN_LENGTH]
    requires { (n ≤ max_pending) × (r.now.confirmed ≤ max_seq) × (reply_head + n * item_length ≤ length m.now) }
    ensures { result ≡ chain_to r.now.confirmed r.now.held m.now r.now.chain n }
{
    let mut chain = r.chain;
    for k in 0..n {
        chain_item(r, k, message::item_of(m, k), &mut chain);
    }
    chain
}

fn held_status(aborted: bool) -> u8
    ensures { result ≡ held_status «aborted» }
{
    if aborted { 2 } else { 1 }
}

fn status_of(aborted: bool) -> u8
    ensures { result ≡ status «aborted» }
{
    if aborted { 0 } else { 1 }
}

pub fn replied_replica(
    r: Replica,
    chain: [u8; replica::CHAIN_LENGTH],
    n: u8,
    aborted: bool,
) -> Replica
    requires { (1 ≤ n) × (n ≤ max_pending) }
    ensures { result ≡ replied_replica r chain n «aborted» }
{
    let mut statuses = r.statuses;
    statuses[n as usize - 1] = held_status(aborted);
    Replica {
        current: operation::no_op(),
        held: r.held.max(n as u32),
        chain,
        statuses,
        ..r
    }
}

pub fn says(v: Verdict, seq: u32) -> Event
    ensures { event_told result ≡ says_of v.aborted v.response seq }
{
    if v.aborted {
        Event::Aborted { seq }
    } else {
        Event::Responded {
            seq,
            response: v.response,
        }
    }
}

// Writes the commit; the client's tags start from `own`.
pub fn write_own_commit(
    r: &Replica,
    own: Keyed,
    chain: &[u8; replica::CHAIN_LENGTH],
    n: u8,
    aborted: bool,
    out: &mut [u8],
)
    requires { (n ≤ max_pending) × (r.now.confirmed ≤ max_seq) × StateOf r.now.keys r.now.number own × (commit_length ≤ length out.old) }
    ensures { out.new ≡ commit_message r.now chain.now n «aborted» ++ drop commit_length out.old }
{
    let seq = r.confirmed + n as u32;
    let status = status_of(aborted);
    let digest = replica::value_at(r.confirmed, n as usize, chain);
    let tag = verify::commit_tag_by(own, r.current, r.number, seq, digest, status);
    message_write::write_commit(
        out,
        Commit {
            op: r.current,
            author: r.number,
            seq,
            digest,
            status,
            tag,
        },
    );
}
