// Check 8 for the slots in use (document 01: stored entries, authors and statuses). Definition: slots_ok of server's specs/Server.antt.
#![tactic(auto)]

ghost use Rattle.std.specs.Prelude.{◌≡◌, ◌+◌, ◌<◌, ◌≤◌, length, take, drop};
ghost use Rattle.slices.specs.Bytes.{all, is_zero};
ghost use Rattle.operation.specs.Operation.{max_pending};
ghost use Rattle.message.specs.Layout.{digest_length, item_length};
ghost use Rattle.message.specs.Message.{item_at};
ghost use Rattle.server.specs.Server.{item_ok, slot_ok, slots_ok};

use server::Server;

// Whether the digest or tag at `at` is zero.
fn zero_part(s: &[u8], at: usize) -> bool
    requires { at + digest_length ≤ length s.now }
    ensures { result ≡ all is_zero (take digest_length (drop at s.now)) }
{
    slices::zero_from(&s[at..at + message::DIGEST_LENGTH], 0)
}

// Whether the operation and author of the item at `at` are allowed.
#[tactic(auto, unfolding(server::specs::Server::item_ok, message::specs::Message::item_at))]
fn item_ok_at(items: &[u8], at: usize) -> bool
    requires { at + item_length ≤ length items.now }
    ensures { result ≡ item_ok (item_at items.now at) }
{
    message::content_ok(
        operation::read_op(items, at),
        items[at + message::ITEM_AUTHOR],
    )
}

// Whether slot `k` is in range: its item is allowed, and it has a commit or neither digest nor tag.
#[tactic(auto, unfolding(server::specs::Server::slot_ok, server::specs::Server::slot_item, server::specs::Server::slot_status, server::specs::Server::slot_digest, server::specs::Server::slot_tag))]
fn slot_ok(s: &Server, k: usize) -> bool
    requires { k < max_pending }
    ensures { result ≡ slot_ok s.now k }
{
    let i = item_ok_at(&s.items, k * message::ITEM_LENGTH);
    let d = zero_part(&s.digests, k * message::DIGEST_LENGTH);
    let t = zero_part(&s.tags, k * message::TAG_LENGTH);
    i & ((s.statuses[k] != 0) | (d & t))
}

// Whether the first `n` slots are in range.
#[tactic(auto, using(server::proofs::Laws::slots_more), unfolding(server::specs::Server::slots_ok))]
pub fn slots_ok(s: &Server, n: usize) -> bool
    requires { n ≤ max_pending }
    ensures { result ≡ slots_ok s.now n }
{
    let mut ok = true;
    for k in 0..n {
        ok &= slot_ok(s, k);
    }
    ok
}
