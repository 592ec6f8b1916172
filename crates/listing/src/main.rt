// Reads a job on standard input and writes its listing.

#![tactic(auto)]

use job_output::MOST_LISTING;
use std::io;

// One byte more than the longest job has: of a longer input no more need be read, since it is refused 42 whatever it holds
// (crates/job/specs/Longest.antt).
const MOST_READ: usize = job::MOST_BYTES + 1;

fn main(rt: HostRuntime) -> io::Result<()> {
    let mut job = [0u8; MOST_READ];
    let mut text = [0u8; MOST_LISTING];
    let n = streams::read_full(&mut rt.stdin(), &mut job);
    match job_output::listing(&job[..n], &mut text) {
        Ok(len) => rt.write_all(&text[..len]),
        Err(_) => Ok(()),
    }
}
