// What is written of the messages into a lent buffer, and not a byte past it: an item, an invoke, a commit, a broadcast. Definitions: specs/Message.antt of message.
#![tactic(auto)]

ghost use Rattle.std.specs.Prelude.{◌≡◌, ◌++◌, ◌+◌, ◌≤◌, length, take, drop};
ghost use Rattle.message.specs.Layout.{item_length, invoke_length, commit_length};
ghost use Rattle.message.specs.Message.{item_bytes, invoke_bytes, commit_bytes, commit_fields, broadcast_bytes};

use message::{Commit, Item};

// The bytes of an item.
#[tactic(auto, unfolding(message::specs::Message::item_bytes, operation::specs::Operation::op_bytes, slices::specs::Bytes::big_endian))]
fn item_bytes(i: Item) -> [u8; message::ITEM_LENGTH]
    ensures { result ≡ item_bytes i }
{
    let mut t = [0u8; message::ITEM_LENGTH];
    t[..message::ITEM_AUTHOR].copy_from_slice(&operation::op_bytes(i.op));
    t[message::ITEM_AUTHOR] = i.author;
    t[message::ITEM_TAG..].copy_from_slice(&i.tag);
    t
}

// Writes an item at `at`.
pub fn write_item(out: &mut [u8], at: usize, i: Item)
    requires { at + item_length ≤ length out.old }
    ensures { out.new ≡ take at out.old ++ item_bytes i ++ drop (at + item_length) out.old }
{
    out[at..at + message::ITEM_LENGTH].copy_from_slice(&item_bytes(i));
}

// The bytes of an invoke.
#[tactic(auto, unfolding(message::specs::Message::invoke_bytes, message::specs::Message::invoke_string, message::specs::Message::item_bytes, operation::specs::Operation::op_bytes, slices::specs::Bytes::big_endian))]
fn invoke_bytes(i: Item) -> [u8; message::INVOKE_LENGTH]
    ensures { result ≡ invoke_bytes i }
{
    let mut t = [0u8; message::INVOKE_LENGTH];
    t[..message::MARK_LENGTH].copy_from_slice(&message::INVOKE_MARK);
    t[message::MARK_LENGTH..].copy_from_slice(&item_bytes(i));
    t
}

// Writes an invoke.
pub fn write_invoke(out: &mut [u8], i: Item)
    requires { invoke_length ≤ length out.old }
    ensures { out.new ≡ invoke_bytes i ++ drop invoke_length out.old }
{
    out[0..message::INVOKE_LENGTH].copy_from_slice(&invoke_bytes(i));
}

// The bytes of a commit, or of a broadcast, which differs by its mark.
fn commit_bytes(mark: [u8; message::MARK_LENGTH], k: Commit) -> [u8; message::COMMIT_LENGTH]
    ensures { result ≡ mark ++ commit_fields k }
{
    let mut t = [0u8; message::COMMIT_LENGTH];
    let f = message_strings::commit_string(k.op, k.author, k.seq, k.digest, k.status);
    t[message::TAG_OFFSET..].copy_from_slice(&k.tag);
    t[..message::TAG_OFFSET].copy_from_slice(&f);
    t[..message::MARK_LENGTH].copy_from_slice(&mark);
    t
}

// Writes a commit.
#[tactic(auto, unfolding(message::specs::Message::commit_bytes, message::specs::Message::commit_fields, message::specs::Message::commit_string))]
pub fn write_commit(out: &mut [u8], k: Commit)
    requires { commit_length ≤ length out.old }
    ensures { out.new ≡ commit_bytes k ++ drop commit_length out.old }
{
    out[0..message::COMMIT_LENGTH].copy_from_slice(&commit_bytes(message::COMMIT_MARK, k));
}

// Writes a broadcast at `at`.
#[tactic(auto, unfolding(message::specs::Message::broadcast_bytes))]
pub fn write_broadcast(out: &mut [u8], at: usize, k: Commit)
    requires { at + commit_length ≤ length out.old }
    ensures { out.new ≡ take at out.old ++ broadcast_bytes k ++ drop (at + commit_length) out.old }
{
    out[at..at + message::COMMIT_LENGTH].copy_from_slice(&commit_bytes(message::BROADCAST_MARK, k));
}
