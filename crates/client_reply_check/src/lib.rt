// The checks of one item of a reply. Definitions of all the checks of a reply: specs/ReplyChecks.antt.
#![tactic(auto)]

ghost use Rattle.std.specs.Prelude.{◌≡◌, ◌+◌, ◌<◌, ◌≤◌};
ghost use Rattle.operation.specs.Operation.{max_pending};
ghost use Rattle.message.specs.Layout.{max_seq};
ghost use Rattle.checks.specs.Checks.{first_no};
ghost use Rattle.replica.specs.Outcome.{no_of};
ghost use Rattle.replica.specs.Places.{status_at};
ghost use Rattle.client_reply_check.specs.ReplyChecks.{listed_ok, item_value, item_chain_ok, is_uncommitted, item_checks};
ghost use Rattle.key_table.specs.KeyTable.{Right, RightOf};

use key_table::KeyTable;
use message::Item;
use replica::{Halt, Replica, Stop};

#[tactic(auto, unfolding(crate::specs::ReplyChecks::listed_ok))]
fn listed_ok(c: u32, k: usize, i: Item) -> bool
    requires { k < max_pending }
    ensures { result ≡ listed_ok c k i }
{
    let seq = c as u64 + (k as u64 + 1);
    message::content_ok(i.op, i.author) & (seq <= message::MAX_SEQ as u64)
}

// The chain value of item `k`, from the one before it.
#[tactic(auto, unfolding(crate::specs::ReplyChecks::item_value))]
pub fn item_value(
    c: u32,
    k: usize,
    i: Item,
    chain: &[u8; replica::CHAIN_LENGTH],
) -> [u8; message::DIGEST_LENGTH]
    requires { (k < max_pending) × (c ≤ max_seq) }
    ensures { result ≡ item_value c k i chain.now }
{
    let v = replica::value_at(c, k, chain);
    verify::link_value(v, i.op, c + (k as u32 + 1), i.author)
}

#[tactic(auto, unfolding(crate::specs::ReplyChecks::item_chain_ok))]
fn item_chain_ok(r: &Replica, k: usize, i: Item) -> bool
    requires { (k < max_pending) × (r.now.confirmed ≤ max_seq) }
    ensures { result ≡ item_chain_ok r.now.confirmed r.now.held r.now.chain k i }
{
    if k < r.held as usize {
        let v = item_value(r.confirmed, k, i, &r.chain);
        let w = replica::value_at(r.confirmed, k + 1, &r.chain);
        slices::equal(&v, &w)
    } else {
        true
    }
}

// Whether item `k` of `n` is the client's own, is not the last, and stands where no status is held.
#[tactic(auto, unfolding(crate::specs::ReplyChecks::is_uncommitted))]
fn is_uncommitted(r: &Replica, n: usize, k: usize, i: Item) -> bool
    requires { k < max_pending }
    ensures { result ≡ is_uncommitted r.now.number (status_at r.now.confirmed k r.now.statuses) n k i }
{
    (i.author == r.number) & (k + 1 < n) & (r.statuses[k] == 0)
}

// The checks of item `k` of `n`, in their order; what its author's tags start from is kept in `table`.
pub fn item_check(
    r: &Replica,
    table: &mut KeyTable,
    n: usize,
    k: usize,
    i: Item,
) -> Result<(), Stop>
    requires { (k < max_pending) × (r.now.confirmed ≤ max_seq) }
    ensures checks { RightOf r.now.keys table.old i.author → no_of result ≡ first_no 0 (item_checks r.now n k i) }
    ensures right { Right r.now.keys table.old → Right r.now.keys table.new }
{
    checks::ask(listed_ok(r.confirmed, k, i), Halt::Content)?;
    let s = table.state_of(&r.keys, i.author);
    checks::ask(verify::item_tag_ok(s, i), Halt::Tag)?;
    checks::ask(item_chain_ok(r, k, i), Halt::Chain)?;
    checks::ask(!is_uncommitted(r, n, k, i), Halt::Uncommitted)?;
    Ok(())
}
