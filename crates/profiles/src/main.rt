// Reads a job on standard input and writes its accepted profiles, one after another; of a refused job nothing.

#![tactic(auto)]

ghost use Rattle.std.specs.Prelude.{◌≡◌, length};

use job_output::MOST_PROFILES;
use std::io;

// One byte more than the longest job has: of a longer input no more need be read, since it is refused 42 whatever it holds
// (crates/job/specs/Longest.antt).
const MOST_READ: usize = job::MOST_BYTES + 1;

// The `ensures` gives only the length, so that no proof spells the zeros out.
fn room() -> [u8; MOST_PROFILES]
    ensures { 918000 ≡ length result }
{
    [0; MOST_PROFILES]
}

fn main(rt: HostRuntime) -> io::Result<()> {
    let mut job = [0u8; MOST_READ];
    let mut bytes = room();
    let n = streams::read_full(&mut rt.stdin(), &mut job);
    match job_output::profiles(&job[..n], &mut bytes) {
        Ok(len) => rt.write_all(&bytes[..len]),
        Err(_) => Ok(()),
    }
}
