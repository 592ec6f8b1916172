// The two outputs of a job: what comes first in each, and what each entry adds, a line of the listing or a profile.

#![tactic(auto)]

ghost use Rattle.std.specs.Prelude.{ℕ, ◌≡◌, ◌+◌, ◌≤◌, List, length, take};
ghost use Rattle.buffer.specs.Checked.{Checked};
ghost use Rattle.buffer.specs.Puts.{PutsText};
ghost use Rattle.buffer.specs.Texts.{IsText};
ghost use Rattle.refusals.specs.Refusals.{checked};
ghost use Rattle.encoding_plan.specs.PlanOf.{plan_of};
ghost use Rattle.encoding_plan.specs.FixedFloats.{counted_plan};
ghost use Rattle.writer.specs.Writer.{max_written};
ghost use Rattle.job.specs.Bounds.{EntryBounds};
ghost use Rattle.job.specs.declared.JobEntry as Declared;
ghost use Rattle.line_text.specs.LineText.{SmallAnswer};
ghost use Rattle.entry_output.specs.EntryOutput.{enough, profile_bytes, length_or_refusal, entry_line, first_line, no_line, profile_part};
ghost use Rattle.entry_output.specs.Steps.{Measures, Small};

use buffer::Text;
use color_encoding::JxlColorEncoding;
use job::JobEntry;
use line_text::{put_first, put_place, put_worded};
use refusals::Refusal;
use writer::{MAX_WRITTEN, Written};

// An output of a job: what comes before the entries, and what each entry adds.
pub trait Stream {
    ghost head_text: { Checked ℕ → List ℕ };

    ghost part_text: { Declared.JobEntry → List ℕ };

    // By the number of entries, or the refusal of the job.
    fn head(answer: Result<u32, Refusal>) -> Text<24>
        requires { SmallAnswer (checked answer) }
        ensures { IsText (head_text (checked answer)) result };

    fn part_length(entry: JobEntry) -> usize
        requires { EntryBounds entry }
        ensures { Measures (part_text entry) max_written result };

    fn put_part(out: &mut [u8], at: usize, entry: JobEntry) -> usize
        requires { EntryBounds entry × (at + length (part_text entry) ≤ length out.old) }
        ensures { PutsText out.old at (part_text entry) result out.new };
}

// The length of the profile of an encoding, or the refusal.
fn measure(encoding: JxlColorEncoding) -> Result<Written, Refusal>
    ensures { checked result ≡ enough (counted_plan encoding) }
{
    writer::profile_length(encoding.into(), MAX_WRITTEN)
}

// ---- the listing: a line for the job, and one for each entry. None is longer than 17 bytes

#[derive(Clone, Copy, Debug, PartialEq, Eq)]
pub struct Listing;

impl Stream for Listing {
    ghost head_text = { first_line };

    ghost part_text = { entry_line };

    fn head(answer: Result<u32, Refusal>) -> Text<24> {
        let mut bytes = [0u8; 24];
        let end = put_first(&mut bytes, answer);
        let len = buffer::put_byte(&mut bytes, end, b'\n');
        Text { bytes, len }
    }

    fn part_length(entry: JobEntry) -> usize {
        let line = entry_line(entry);
        line.len
    }

    fn put_part(out: &mut [u8], at: usize, entry: JobEntry) -> usize {
        put_line(out, at, entry_line(entry))
    }
}

fn put_answer(out: &mut [u8], at: usize, answer: Result<Written, Refusal>) -> usize
    requires { Small (checked answer) × (at + 12 ≤ length out.old) }
    ensures { PutsText out.old at (length_or_refusal (checked answer)) result out.new }
{
    match answer {
        Ok(written) => digits::put_up_to_four(out, at, written.length as u64),
        Err(refusal) => put_worded(out, at, b"refused ", refusal.number()),
    }
}

fn entry_line(entry: JobEntry) -> Text<24>
    requires { EntryBounds entry }
    ensures { IsText (entry_line entry) result }
{
    let encoding = entry.encoding;
    let mut bytes = [0u8; 24];
    let at = put_place(&mut bytes, entry.section, entry.place);
    let end = put_answer(&mut bytes, at, measure(encoding));
    let len = buffer::put_byte(&mut bytes, end, b'\n');
    Text { bytes, len }
}

pub fn put_line(out: &mut [u8], at: usize, line: Text<24>) -> usize
    requires { (line.len ≤ length line.bytes) × (at + line.len ≤ length out.old) }
    ensures { PutsText out.old at (take line.len line.bytes) result out.new }
{
    let len = line.len;
    let bytes = line.bytes;
    buffer::put_bytes(out, at, &bytes[..len])
}

// ---- the profiles, one after another; of a refused entry nothing

#[derive(Clone, Copy, Debug, PartialEq, Eq)]
pub struct Profiles;

impl Stream for Profiles {
    ghost head_text = { no_line };

    ghost part_text = { profile_part };

    fn head(_answer: Result<u32, Refusal>) -> Text<24> {
        Text {
            bytes: [0; 24],
            len: 0,
        }
    }

    fn part_length(entry: JobEntry) -> usize {
        match measure(entry.encoding) {
            Ok(written) => written.length as usize,
            Err(_) => 0,
        }
    }

    fn put_part(out: &mut [u8], at: usize, entry: JobEntry) -> usize {
        put_profile(out, at, entry.encoding)
    }
}

fn put_profile(out: &mut [u8], at: usize, encoding: JxlColorEncoding) -> usize
    requires { at + length (profile_bytes (plan_of encoding)) ≤ length out.old }
    ensures { PutsText out.old at (profile_bytes (plan_of encoding)) result out.new }
{
    match writer::maybe_create_profile(encoding.into(), &mut out[at..]) {
        Ok(written) => at + written.length as usize,
        Err(_) => at,
    }
}
