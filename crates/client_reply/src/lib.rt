// The verdict on a reply: whether the current operation is aborted, and its response. Definitions of taking a reply: specs/Reply.antt.
#![tactic(auto)]

ghost use Rattle.std.specs.Prelude.{◌≡◌, ◌+◌, ◌*◌, ◌<◌, ◌≤◌, length, [], ◌∷◌, ◌++◌};
ghost use Rattle.operation.specs.Operation.{max_pending};
ghost use Rattle.message.specs.Layout.{item_length, reply_head};
ghost use Rattle.message.specs.Message.{reply_count};
ghost use Rattle.client_reply.specs.Reply.{sort_to, is_aborted, last_response};
ghost use Rattle.client_reply.specs.Lists.{firsts, lists, Full};

use operation::{Operation, Response};
use replica::Replica;

// The first `n` of `all`. No heap: room for as many as can be pending.
#[derive(Clone, Copy)]
struct Operations {
    all: [Operation; operation::MAX_PENDING],
    n: usize,
}

impl Operations {
    fn empty() -> Operations
        ensures { (firsts result ≡ []) × (result.n ≡ 0) }
    {
        Operations {
            all: [operation::no_op(); operation::MAX_PENDING],
            n: 0,
        }
    }

    fn push(&mut self, e: Operation)
        requires { self.old.n < max_pending }
        ensures { (firsts self.new ≡ firsts self.old ++ (e ∷ [])) × (self.new.n ≡ self.old.n + 1) }
    {
        self.all[self.n] = e;
        self.n += 1;
    }
}

// The two lists of a reply's items.
#[derive(Clone, Copy)]
struct Lists {
    others: Operations,
    own: Operations,
}

// The first `n` items in their lists.
fn sort_to(r: &Replica, m: &[u8], n: usize) -> Lists
    requires { (n ≤ max_pending) × (reply_head + n * item_length ≤ length m.now) }
    ensures { (lists result ≡ sort_to r.now.confirmed r.now.number r.now.statuses m.now n) × Full result n }
{
    let mut others = Operations::empty();
    let mut own = Operations::empty();
    for k in 0..n {
        let i = message::item_of(m, k);
        if i.author == r.number {
            if r.statuses[k] == 1 {
                own.push(i.op);
            }
        } else {
            others.push(i.op);
        }
    }
    Lists { others, own }
}

// Whether the current operation is aborted, and its response if not. No Option: `decide` promises the response of an aborted one too.
#[derive(Clone, Copy)]
pub struct Verdict {
    pub aborted: bool,
    pub response: Response,
}

pub fn decide(r: &Replica, m: &[u8], n: usize) -> Verdict
    requires { (n ≡ reply_count m.now) × (1 ≤ n) × (n ≤ max_pending) × (reply_head + n * item_length ≤ length m.now) }
    ensures { (result.aborted ≡ is_aborted r.now m.now) × (result.response ≡ last_response r.now m.now) }
{
    let Lists { others, mut own } = sort_to(r, m, n - 1);
    let before = operation_run::run_all(&own.all[..own.n], r.cells);
    own.push(r.current);
    Verdict {
        aborted: conflict::conflict(r.cells, others.all, others.n, own.all, own.n),
        response: operation_run::response_on(r.current, before),
    }
}
