// Tags by the clients' keys, and values of the hash chain. Definitions: specs/Verify.antt.
#![tactic(auto)]

ghost use Rattle.std.specs.Prelude.{◌≡◌, List, ℕ, ◌≤◌};
ghost use Rattle.slices.specs.Bytes.{same};
ghost use Rattle.message.specs.Layout.{client_count};
ghost use Rattle.hmac.specs.Keyed.{keyed_of};
ghost use Rattle.verify.specs.Verify.{key_of, invoke_tag, commit_tag, item_tag_ok, commit_tag_ok, link_value};

use hmac::Keyed;
use message::{Commit, Item};
use operation::Operation;

// What each tag by a client's key starts from.
pub fn key_state(keys: &[u8; message::KEYS_LENGTH], client: u8) -> Keyed
    requires { (1 ≤ client) × (client ≤ client_count) }
    ensures { result ≡ keyed_of (key_of keys.now client) }
{
    let a = (client as usize - 1) * message::KEY_LENGTH;
    hmac::keyed_of(&keys[a..a + message::KEY_LENGTH])
}

// The tag of an invoke, from its author's key.
fn invoke_tag_by(s: Keyed, e: Operation, author: u8) -> [u8; message::TAG_LENGTH]
    ensures { (keys : List ℕ) → s ≡ keyed_of (key_of keys author) → result ≡ invoke_tag keys e author }
{
    hmac::tag_by(s, &message_strings::invoke_string(e, author))
}

// The tag of an invoke.
pub fn invoke_tag(
    keys: &[u8; message::KEYS_LENGTH],
    e: Operation,
    author: u8,
) -> [u8; message::TAG_LENGTH]
    requires { (1 ≤ author) × (author ≤ client_count) }
    ensures { result ≡ invoke_tag keys.now e author }
{
    invoke_tag_by(key_state(keys, author), e, author)
}

// The tag of a commit, from its author's key.
pub fn commit_tag_by(
    s: Keyed,
    e: Operation,
    author: u8,
    seq: u32,
    digest: [u8; message::DIGEST_LENGTH],
    status: u8,
) -> [u8; message::TAG_LENGTH]
    ensures { (keys : List ℕ) → s ≡ keyed_of (key_of keys author) → result ≡ commit_tag keys e author seq digest status }
{
    hmac::tag_by(
        s,
        &message_strings::commit_string(e, author, seq, digest, status),
    )
}

// Whether a tag is the right one: the differences of all 32 bytes, tested once. Tags are compared here only.
fn tag_is(tag: [u8; message::TAG_LENGTH], right: [u8; message::TAG_LENGTH]) -> bool
    ensures { result ≡ same tag right }
{
    tag_compare::different_bits(tag, right) == 0
}

// Whether an item's tag is right, from its author's key.
pub fn item_tag_ok(s: Keyed, i: Item) -> bool
    ensures { (keys : List ℕ) → s ≡ keyed_of (key_of keys i.author) → result ≡ item_tag_ok keys i }
{
    tag_is(i.tag, invoke_tag_by(s, i.op, i.author))
}

// Whether a broadcast's tag is right.
pub fn commit_tag_ok(keys: &[u8; message::KEYS_LENGTH], k: Commit) -> bool
    requires { (1 ≤ k.author) × (k.author ≤ client_count) }
    ensures { result ≡ commit_tag_ok keys.now k }
{
    let s = key_state(keys, k.author);
    tag_is(
        k.tag,
        commit_tag_by(s, k.op, k.author, k.seq, k.digest, k.status),
    )
}

// The chain value at `seq`, from the one before it.
pub fn link_value(
    value: [u8; message::DIGEST_LENGTH],
    e: Operation,
    seq: u32,
    author: u8,
) -> [u8; message::DIGEST_LENGTH]
    ensures { result ≡ link_value value e seq author }
{
    sha256::digest_of(&message_strings::chain_string(value, e, seq, author))
}
