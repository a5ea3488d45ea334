// A commit reaches the server without delay; its broadcasts go to the log. Definitions: specs/Trial.antt of trial_core.
#![tactic(auto)]

ghost use Rattle.std.specs.Prelude.{◌≡◌, ◌+◌, ◌*◌, ◌<◌, ◌≤◌, length};
ghost use Rattle.message.specs.Layout.{client_count, commit_length};
ghost use Rattle.trial_core.specs.Sizes.{commit_room};
ghost use Rattle.server.specs.Server.{server_step};
ghost use Rattle.trial_core.specs.Trial.{logged, broadcast_count};

use server::Server;

// Puts the first `n` of these broadcasts at the end of the log.
fn append(log: &mut [u8; trial_core::LOG_LENGTH], passed: u32, n: usize, out: &[u8])
    requires { n * commit_length ≤ length out.now }
    ensures { log.new ≡ logged log.old passed n out.now }
{
    for k in 0..n {
        let at = k * message::COMMIT_LENGTH;
        let place = (passed as usize + k) % trial_core::LOG_SIZE * message::COMMIT_LENGTH;
        log[place..place + message::COMMIT_LENGTH].copy_from_slice(
            &out[at..at + message::COMMIT_LENGTH],
        );
    }
}

fn broadcast_buffer() -> [u8; trial_core::COMMIT_ROOM]
    ensures { length result ≡ commit_room }
{
    [0u8; trial_core::COMMIT_ROOM]
}

// The server takes a commit; the broadcasts go to the lines of all.
pub fn commit(s: Server, i: usize, m: &[u8], log: &mut [u8; trial_core::LOG_LENGTH]) -> Server
    requires { i < client_count }
    ensures { (result ≡ (server_step s (i + 1) m.now commit_room).server)
        × (log.new ≡ logged log.old s.passed (broadcast_count (server_step s (i + 1) m.now commit_room).says) (server_step s (i + 1) m.now commit_room).wrote) }
{
    let mut out = broadcast_buffer();
    let q = server_receive::receive(s, (i + 1) as u8, m, &mut out);
    let n = trial_outcome::broadcast_count(q.outcome) as usize;
    append(log, s.passed, n, &out);
    q.server
}
