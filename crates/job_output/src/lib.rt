// What comes out of a job: its listing, its profiles one after another, and the profile of one entry.
// A call that fills a lent output first finds out how long the bytes are; where the output is shorter, it changes nothing.

#![tactic(auto)]

ghost use Rattle.std.specs.Prelude.{◌≡◌, ◌+◌, ◌*◌, ◌<◌, ◌≤◌, length};
ghost use Rattle.buffer.specs.Puts.{PutsText};
ghost use Rattle.refusals.specs.Refusals.{checked};
ghost use Rattle.profile.specs.TagTypes.{join};
ghost use Rattle.entry_output.specs.Steps.{Measures};
ghost use Rattle.writer.specs.Writer.{max_written};
ghost use Rattle.job.specs.Job as Job;
ghost use Rattle.job.specs.Job.{entry_answer};
ghost use Rattle.job_output.specs.JobOutput as Out;
ghost use Rattle.job_output.specs.JobOutput.{parts_of, output_of, Lends, ProfileOf};
ghost use Rattle.job_output.specs.Entries.{Entries, Stands};

use entry_output::{Listing, Profiles, Stream, put_line};
use job::JobEntry;
use refusals::Refusal;

// The most bytes of a listing: of a job that is not refused a first line of up to 13 (`profiles 765`), and a line of up to 16 for each entry (`2 255 refused 7`); and of the
// profiles of a job together (specs/Most.antt).
pub const MOST_LISTING: usize = 13 + job::MOST_ENTRIES * 16;

pub const MOST_PROFILES: usize = job::MOST_ENTRIES * writer::MAX_WRITTEN;

// ---- all entries

// The i-th of the n entries of a job that is not refused.
fn entry_of(job: &[u8], n: usize, i: usize) -> JobEntry
    requires { Entries job.now n × (i < n) }
    ensures { Stands job.now i result }
{
    match job::entry_alone(job, i) {
        Ok(Some(entry)) => entry,
        Ok(None) => unreachable!(),
        Err(_) => unreachable!(),
    }
}

fn parts_length<S: Stream>(job: &[u8], n: usize) -> usize
    requires { Entries job.now n }
    ensures { Measures (join (parts_of S.part_text (Job.job 1 job.now))) (n * max_written) result }
{
    let mut total = 0usize;
    for i in 0..n {
        total += S::part_length(entry_of(job, n, i));
    }
    total
}

fn put_parts<S: Stream>(job: &[u8], n: usize, out: &mut [u8], start: usize) -> usize
    requires { Entries job.now n × (start + length (join (parts_of S.part_text (Job.job 1 job.now))) ≤ length out.old) }
    ensures { PutsText out.old start (join (parts_of S.part_text (Job.job 1 job.now))) result out.new }
{
    let mut at = start;
    for i in 0..n {
        at = S::put_part(&mut *out, at, entry_of(job, n, i));
    }
    at
}

fn output_length<S: Stream>(job: &[u8]) -> usize
    ensures { result ≡ length (output_of S.head_text S.part_text (Job.job 1 job.now)) }
{
    let answer = job::entries(job);
    let line = S::head(answer);
    match answer {
        Ok(n) => line.len + parts_length::<S>(job, n as usize),
        Err(_) => line.len,
    }
}

fn put_output<S: Stream>(job: &[u8], out: &mut [u8]) -> usize
    requires { length (output_of S.head_text S.part_text (Job.job 1 job.now)) ≤ length out.old }
    ensures { PutsText out.old 0 (output_of S.head_text S.part_text (Job.job 1 job.now)) result out.new }
{
    let answer = job::entries(job);
    let start = put_line(&mut *out, 0, S::head(answer));
    match answer {
        Ok(n) => put_parts::<S>(job, n as usize, &mut *out, start),
        Err(_) => start,
    }
}

// How many bytes were put to the front of a lent output; or 9, where it is too short for them.
fn lend<S: Stream>(job: &[u8], out: &mut [u8]) -> Result<usize, Refusal>
    ensures { Lends (output_of S.head_text S.part_text (Job.job 1 job.now)) out.old out.new (checked result) }
{
    if out.len() < output_length::<S>(job) {
        return Err(Refusal::TooShort);
    }
    Ok(put_output::<S>(job, out))
}

// ---- the calls

// How many bytes the listing of a job has.
pub fn listing_length(job: &[u8]) -> usize
    ensures { result ≡ length (Out.listing (Job.job 1 job.now)) }
{
    output_length::<Listing>(job)
}

// Puts the listing of a job to the front of the output, and answers how many bytes it has; or 9, where the output is too short.
pub fn listing(job: &[u8], out: &mut [u8]) -> Result<usize, Refusal>
    ensures { Lends (Out.listing (Job.job 1 job.now)) out.old out.new (checked result) }
{
    lend::<Listing>(job, out)
}

// How many bytes the accepted profiles of a job have together.
pub fn profiles_length(job: &[u8]) -> usize
    ensures { result ≡ length (Out.profiles (Job.job 1 job.now)) }
{
    output_length::<Profiles>(job)
}

// Puts the accepted profiles of a job, one after another, to the front of the output, and answers likewise; of a refused job nothing.
pub fn profiles(job: &[u8], out: &mut [u8]) -> Result<usize, Refusal>
    ensures { Lends (Out.profiles (Job.job 1 job.now)) out.old out.new (checked result) }
{
    lend::<Profiles>(job, out)
}

// Writes the profile of the i-th entry, the first being the 0-th over all sections, to the front of the output. Its length; none, where the job has
// no such entry; or the refusal of the job or of the entry.
pub fn profile(job: &[u8], i: usize, out: &mut [u8]) -> Result<Option<u32>, Refusal>
    ensures { ProfileOf (λ p. p) (entry_answer (Job.job 1 job.now) i) out.old out.new (checked result) }
{
    let Some(entry) = job::entry(job, i)? else {
        return Ok(None);
    };
    let written = writer::maybe_create_profile(entry.encoding.into(), out)?;
    Ok(Some(written.length))
}
