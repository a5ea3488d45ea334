// Check 8 for the server (document 01: the relay's fields in range). Definition: in_range of server's specs/Server.antt.
#![tactic(auto)]

ghost use Rattle.std.specs.Prelude.{◌≡◌, leb};
ghost use Rattle.operation.specs.Operation.{max_count};
ghost use Rattle.slices.specs.Bytes.{all};
ghost use Rattle.server.specs.Server.{in_range};

use server::Server;

// Whether each count is at most 1,000,000.
fn counts_ok(counts: &[u32]) -> bool
    ensures { result ≡ all (λ x. leb x max_count) counts.now }
{
    counts.iter().all(|x| *x <= operation::MAX_COUNT)
}

// Check 8: whether each field is in range.
#[tactic(auto, unfolding(server::specs::Server::in_range))]
pub fn in_range(s: &Server) -> bool
    ensures { result ≡ in_range s.now }
{
    let n = s.placed.saturating_sub(s.passed) as usize;
    if n <= operation::MAX_PENDING {
        let c = counts_ok(&s.counts);
        let u = slices::each_most(&s.statuses, 2);
        let o = server_slots::slots_ok(s, n);
        let z = server_unused::unused_ok(s, n);
        (s.passed <= s.placed) & (s.placed <= message::MAX_SEQ) & c & u & o & z
    } else {
        false
    }
}
