// The job of 01: color encodings in three sections, gray, RGB and XYB, each after a one-byte count. The entries of a job are numbered from 0 on
// over all sections. A refused job has no entries.

#![tactic(auto)]

ghost use Rattle.std.specs.Prelude.{◌≡◌, ◌+◌, ◌*◌, ◌≤◌, ◌<◌, length};
ghost use Rattle.buffer.specs.Checked.{is};
ghost use Rattle.refusals.specs.Refusals.{checked};
ghost use Rattle.job.specs.Job as Job;
ghost use Rattle.job.specs.Job.{number, size, encoding, sections, cut, job_answer, entry_answer, entry_alone};
ghost use Rattle.job.specs.Counts.{SectionIs, Counted, FilledBy, entries_by, entry_in, Sized};
ghost use Rattle.job.specs.Bounds.{AnswersEntry, AnswersJob};

use color_encoding::JxlColorEncoding;
use job_entry::{gray_encoding, rgb_encoding, xyb_encoding};
use refusals::Refusal;

// A section of a job, by its number in the listing.
#[derive(Clone, Copy, Debug, PartialEq, Eq)]
pub enum Section {
    Gray = 1,
    Rgb,
    Xyb,
}

// An entry of a job: its section, its place there from 1 on, and what it means.
#[derive(Clone, Copy, Debug)]
pub struct JobEntry {
    pub section: Section,
    pub place: u32,
    pub encoding: JxlColorEncoding,
}

// How many entries each section of a job has.
#[derive(Clone, Copy, Debug, PartialEq, Eq)]
struct Counts {
    gray: usize,
    rgb: usize,
    xyb: usize,
}

// The bytes of an entry.
const GRAY_BYTES: usize = 15;

const RGB_BYTES: usize = 40;

const XYB_BYTES: usize = 1;

// The most entries of a section, which a one-byte count tells, and the most bytes of a job (specs/Longest.antt).
const MOST_IN_SECTION: usize = 255;

pub const MOST_BYTES: usize = 3 + MOST_IN_SECTION * (GRAY_BYTES + RGB_BYTES + XYB_BYTES);

// The most entries of a job.
pub const MOST_ENTRIES: usize = 3 * MOST_IN_SECTION;

// ---- sections

impl Section {
    // Its number in the listing.
    pub fn number(self) -> u32
        ensures { result ≡ number self }
    {
        self as u32
    }

    // The bytes of an entry.
    fn size(self) -> usize
        ensures { result ≡ size self }
    {
        match self {
            Section::Gray => GRAY_BYTES,
            Section::Rgb => RGB_BYTES,
            Section::Xyb => XYB_BYTES,
        }
    }

    // What the bytes of an entry mean.
    fn encoding(self, entry: &[u8]) -> Result<JxlColorEncoding, Refusal>
        ensures { checked result ≡ encoding self entry.now }
    {
        match self {
            Section::Gray => gray_encoding(entry),
            Section::Rgb => rgb_encoding(entry),
            Section::Xyb => xyb_encoding(entry),
        }
    }
}

// How many entries a section has whose count stands at a place, where they are all there.
fn section_at(job: &[u8], at: usize, section: Section) -> Result<usize, Refusal>
    ensures { SectionIs job.now at (size section) (checked result) }
{
    if at < job.len() {
        let n = job[at] as usize;
        if n * section.size() < job.len() - at {
            return Ok(n);
        }
    }
    Err(Refusal::EndsEarly)
}

fn section_counts(job: &[u8]) -> Result<Counts, Refusal>
    ensures { Counted job.now (checked result) }
{
    let gray = section_at(job, 0, Section::Gray)?;
    let rgb_at = 1 + gray * GRAY_BYTES;
    let rgb = section_at(job, rgb_at, Section::Rgb)?;
    let xyb_at = rgb_at + 1 + rgb * RGB_BYTES;
    let xyb = section_at(job, xyb_at, Section::Xyb)?;
    if xyb_at + 1 + xyb * XYB_BYTES < job.len() {
        return Err(Refusal::BytesLeft);
    }
    Ok(Counts { gray, rgb, xyb })
}

// ---- entries

// The i-th entry of a section whose entries begin at a place of the job.
fn entry_in(
    job: &[u8],
    section: Section,
    start: usize,
    i: usize,
) -> Result<Option<JobEntry>, Refusal>
    requires { (i < 256) × (start + i * size section + size section ≤ length job.now) }
    ensures { checked result ≡ entry_in job.now section start i }
{
    let size = section.size();
    let at = start + i * size;
    let encoding = section.encoding(&job[at..at + size])?;
    Ok(Some(JobEntry {
        section,
        place: (i + 1) as u32,
        encoding,
    }))
}

// The i-th entry, of a job whose counts are known.
fn entry_by(job: &[u8], counts: Counts, i: usize) -> Result<Option<JobEntry>, Refusal>
    requires { FilledBy job.now counts }
    ensures { AnswersEntry (entry_alone (is (entries_by job.now counts.gray counts.rgb counts.xyb)) i) (checked result) }
{
    if i < counts.gray {
        return entry_in(job, Section::Gray, 1, i);
    }
    let rgb_start = 2 + counts.gray * GRAY_BYTES;
    let j = i - counts.gray;
    if j < counts.rgb {
        return entry_in(job, Section::Rgb, rgb_start, j);
    }
    let xyb_start = rgb_start + counts.rgb * RGB_BYTES + 1;
    let k = j - counts.rgb;
    if k < counts.xyb {
        return entry_in(job, Section::Xyb, xyb_start, k);
    }
    Ok(None)
}

// The i-th entry by itself; none, where the job has fewer. A job with another entry that has no meaning is not refused here. It costs no walk over the job.
pub fn entry_alone(job: &[u8], i: usize) -> Result<Option<JobEntry>, Refusal>
    ensures { AnswersEntry (entry_alone (cut 1 sections job.now) i) (checked result) }
{
    let counts = section_counts(job)?;
    entry_by(job, counts, i)
}

// ---- the job

// A job of n entries, each looked at in turn.
fn walk(job: &[u8], n: usize) -> Result<u32, Refusal>
    requires { Sized n (cut 1 sections job.now) }
    ensures { AnswersJob (job_answer (Job.job 1 job.now)) (checked result) }
{
    for i in 0..n {
        entry_alone(job, i)?;
    }
    Ok(n as u32)
}

// How many entries a job has, or its refusal: 41, 42 or 43.
pub fn entries(job: &[u8]) -> Result<u32, Refusal>
    ensures { AnswersJob (job_answer (Job.job 1 job.now)) (checked result) }
{
    let counts = section_counts(job)?;
    walk(job, counts.gray + counts.rgb + counts.xyb)
}

// The i-th entry of a job; none, where the job has fewer; or the job's refusal.
pub fn entry(job: &[u8], i: usize) -> Result<Option<JobEntry>, Refusal>
    ensures { checked result ≡ entry_answer (Job.job 1 job.now) i }
{
    entries(job)?;
    entry_alone(job, i)
}
