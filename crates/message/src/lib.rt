// The four messages: their layout, the strings under digest and tag, and readers of any bytes. Definitions: specs/Layout.antt, specs/Message.antt.
#![tactic(auto)]

ghost use Rattle.std.specs.Prelude.{◌≡◌, ◌+◌, ◌*◌, ◌≤◌, length};
ghost use Rattle.message.specs.Layout.{item_length, reply_head, commit_length};
ghost use Rattle.message.specs.Message.{marked, is_invoke, is_reply, is_commit, is_broadcast, item_at, reply_item, commit_of};
ghost use Rattle.message.specs.Readers.{read_invoke, read_commit};
ghost use Rattle.message.specs.Content.{content_ok, commit_ok};
ghost use Rattle.operation.specs.Operation.{op_ok};

use operation::Operation;

// Clients are 1 to `CLIENTS`, sequence numbers 1 to `MAX_SEQ`.
pub const CLIENTS: u8 = 8;

pub const MAX_SEQ: u32 = 1000000;

// The marks: `IN`, `RE`, `CO` and `BR`.
pub const MARK_LENGTH: usize = 2;

pub const INVOKE_MARK: [u8; MARK_LENGTH] = [b'I', b'N'];

pub const REPLY_MARK: [u8; MARK_LENGTH] = [b'R', b'E'];

pub const COMMIT_MARK: [u8; MARK_LENGTH] = [b'C', b'O'];

pub const BROADCAST_MARK: [u8; MARK_LENGTH] = [b'B', b'R'];

// Lengths in bytes.
pub const DIGEST_LENGTH: usize = 32;

pub const TAG_LENGTH: usize = 32;

pub const KEY_LENGTH: usize = 32;

pub const KEYS_LENGTH: usize = 256;

pub const ITEM_LENGTH: usize = 41;

pub const INVOKE_LENGTH: usize = 43;

pub const COMMIT_LENGTH: usize = 80;

// Where author and tag begin in an item.
pub const ITEM_AUTHOR: usize = 8;

pub const ITEM_TAG: usize = 9;

// The strings under an invoke's tag and under a chain value; in the latter: operation, sequence number and author.
pub const INVOKE_STRING: usize = 11;

pub const LINK_STRING: usize = 45;

pub const LINK_OP: usize = 32;

pub const LINK_SEQ: usize = 40;

pub const LINK_AUTHOR: usize = 44;

// In a reply: the number of items, and the first item.
pub const COUNT_OFFSET: usize = 2;

pub const REPLY_HEAD: usize = 3;

// In a commit and a broadcast: author, sequence number, digest, status and tag.
pub const AUTHOR_OFFSET: usize = 10;

pub const SEQ_OFFSET: usize = 11;

pub const DIGEST_OFFSET: usize = 15;

pub const STATUS_OFFSET: usize = 47;

pub const TAG_OFFSET: usize = 48;

// An operation with its author and the author's tag: what an invoke carries, and each item of a reply.
#[derive(Clone, Copy)]
pub struct Item {
    pub op: Operation,
    pub author: u8,
    pub tag: [u8; TAG_LENGTH],
}

// What a commit and a broadcast carry.
#[derive(Clone, Copy)]
pub struct Commit {
    pub op: Operation,
    pub author: u8,
    pub seq: u32,
    pub digest: [u8; DIGEST_LENGTH],
    pub status: u8,
    pub tag: [u8; TAG_LENGTH],
}

// Whether the bytes begin with the mark.
#[tactic(auto, unfolding(crate::specs::Message::marked))]
pub fn is_marked(mark: [u8; MARK_LENGTH], m: &[u8]) -> bool
    ensures { result ≡ marked mark m.now }
{
    m.starts_with(&mark)
}

#[tactic(auto, unfolding(crate::specs::Message::is_invoke))]
pub fn is_invoke(m: &[u8]) -> bool
    ensures { result ≡ is_invoke m.now }
{
    is_marked(INVOKE_MARK, m) & (m.len() == INVOKE_LENGTH)
}

#[tactic(auto, unfolding(crate::specs::Message::is_reply))]
pub fn is_reply(m: &[u8]) -> bool
    ensures { result ≡ is_reply m.now }
{
    let marked = is_marked(REPLY_MARK, m);
    if REPLY_HEAD <= m.len() {
        let n = m[COUNT_OFFSET] as usize;
        marked & (n <= operation::MAX_PENDING) & (m.len() == REPLY_HEAD + n * ITEM_LENGTH)
    } else {
        false
    }
}

#[tactic(auto, unfolding(crate::specs::Message::is_commit))]
pub fn is_commit(m: &[u8]) -> bool
    ensures { result ≡ is_commit m.now }
{
    is_marked(COMMIT_MARK, m) & (m.len() == COMMIT_LENGTH)
}

#[tactic(auto, unfolding(crate::specs::Message::is_broadcast))]
pub fn is_broadcast(m: &[u8]) -> bool
    ensures { result ≡ is_broadcast m.now }
{
    is_marked(BROADCAST_MARK, m) & (m.len() == COMMIT_LENGTH)
}

// The item at byte `i`.
#[tactic(auto, unfolding(crate::specs::Message::item_at))]
pub fn read_item(m: &[u8], i: usize) -> Item
    requires { i + item_length ≤ length m.now }
    ensures { result ≡ item_at m.now i }
{
    Item {
        op: operation::read_op(m, i),
        author: m[i + ITEM_AUTHOR],
        tag: slices::part(m, i + ITEM_TAG),
    }
}

// Item `k` of a reply.
pub fn item_of(m: &[u8], k: usize) -> Item
    requires { reply_head + (k + 1) * item_length ≤ length m.now }
    ensures { result ≡ reply_item m.now k }
{
    read_item(m, REPLY_HEAD + k * ITEM_LENGTH)
}

// The fields of a commit or broadcast.
#[tactic(auto, unfolding(crate::specs::Message::commit_of))]
pub fn commit_of(m: &[u8]) -> Commit
    requires { commit_length ≤ length m.now }
    ensures { result ≡ commit_of m.now }
{
    Commit {
        op: operation::read_op(m, MARK_LENGTH),
        author: m[AUTHOR_OFFSET],
        seq: slices::word_at(m, SEQ_OFFSET),
        digest: slices::part(m, DIGEST_OFFSET),
        status: m[STATUS_OFFSET],
        tag: slices::part(m, TAG_OFFSET),
    }
}

// Whether operation and author are allowed.
pub fn content_ok(e: Operation, author: u8) -> bool
    ensures { result ≡ content_ok op_ok e author }
{
    operation::op_ok(e) & (1 <= author) & (author <= CLIENTS)
}

// Whether a commit's operation, author and status are allowed.
#[tactic(auto, unfolding(crate::specs::Content::commit_ok))]
pub fn commit_ok(k: Commit) -> bool
    ensures { result ≡ commit_ok k }
{
    let e = k.op;
    content_ok(e, k.author) & (k.status <= 1)
}

// The item of an invoke, from any bytes.
#[tactic(auto, unfolding(crate::specs::Readers::read_invoke, crate::specs::Message::is_invoke))]
pub fn read_invoke(m: &[u8]) -> Option<Item>
    ensures { result ≡ read_invoke m.now }
{
    if is_invoke(m) {
        Some(read_item(m, MARK_LENGTH))
    } else {
        None
    }
}

// The commit of a commit message, from any bytes.
#[tactic(auto, unfolding(crate::specs::Readers::read_commit, crate::specs::Message::is_commit))]
pub fn read_commit(m: &[u8]) -> Option<Commit>
    ensures { result ≡ read_commit m.now }
{
    if is_commit(m) {
        Some(commit_of(m))
    } else {
        None
    }
}
