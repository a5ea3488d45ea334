// The strings under digest and tag. Definitions: specs/Message.antt of message.
#![tactic(auto)]

ghost use Rattle.std.specs.Prelude.{◌≡◌, [], ◌∷◌, ◌++◌};
ghost use Rattle.operation.specs.Operation.{op_bytes};
ghost use Rattle.message.specs.Message.{invoke_string, commit_string, chain_string};

use operation::Operation;

// The 11 bytes of mark, operation and author.
#[tactic(auto, unfolding(operation::specs::Operation::op_bytes, slices::specs::Bytes::big_endian))]
fn head(mark: [u8; message::MARK_LENGTH], e: Operation, author: u8) -> [u8; message::INVOKE_STRING]
    ensures { result ≡ mark ++ op_bytes e ++ (author ∷ []) }
{
    let mut t = [0u8; message::INVOKE_STRING];
    t[message::MARK_LENGTH..message::AUTHOR_OFFSET].copy_from_slice(&operation::op_bytes(e));
    t[message::AUTHOR_OFFSET] = author;
    t[..message::MARK_LENGTH].copy_from_slice(&mark);
    t
}

// The string under an invoke's tag.
#[tactic(auto, unfolding(message::specs::Message::invoke_string))]
pub fn invoke_string(e: Operation, author: u8) -> [u8; message::INVOKE_STRING]
    ensures { result ≡ invoke_string e author }
{
    head(message::INVOKE_MARK, e, author)
}

// The string under a commit's tag.
#[tactic(auto, unfolding(message::specs::Message::commit_string, operation::specs::Operation::op_bytes, slices::specs::Bytes::big_endian))]
pub fn commit_string(
    e: Operation,
    author: u8,
    seq: u32,
    digest: [u8; message::DIGEST_LENGTH],
    status: u8,
) -> [u8; message::TAG_OFFSET]
    ensures { result ≡ commit_string e author seq digest status }
{
    let mut t = [0u8; message::TAG_OFFSET];
    t[..message::SEQ_OFFSET].copy_from_slice(&head(message::COMMIT_MARK, e, author));
    t[message::SEQ_OFFSET..message::DIGEST_OFFSET].copy_from_slice(&slices::word_bytes(seq));
    t[message::STATUS_OFFSET] = status;
    t[message::DIGEST_OFFSET..message::STATUS_OFFSET].copy_from_slice(&digest);
    t
}

// The string under the hash chain's value at `seq`; `value` is the one before it.
#[tactic(auto, unfolding(message::specs::Message::chain_string, operation::specs::Operation::op_bytes, slices::specs::Bytes::big_endian))]
pub fn chain_string(
    value: [u8; message::DIGEST_LENGTH],
    e: Operation,
    seq: u32,
    author: u8,
) -> [u8; message::LINK_STRING]
    ensures { result ≡ chain_string value e seq author }
{
    let mut t = [0u8; message::LINK_STRING];
    t[message::LINK_OP..message::LINK_SEQ].copy_from_slice(&operation::op_bytes(e));
    t[message::LINK_SEQ..message::LINK_AUTHOR].copy_from_slice(&slices::word_bytes(seq));
    t[message::LINK_AUTHOR] = author;
    t[..message::LINK_OP].copy_from_slice(&value);
    t
}
