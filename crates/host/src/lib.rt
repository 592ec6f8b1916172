// The writer, the job, the reader, the finder, the parser of descriptions and the two calls on APP2 segments for C and C++, which `host_c` exports. An
// encoding comes as numbers, a job, a file, a text and segments as bytes, and the output is lent. A call that writes answers the length of
// what it wrote (284 or more) or a number below 100, and then the output is unchanged; one that reads a file, a job or a text
// answers 0 or a number, and then what is lent is unchanged; the finder answers a size.
// That there is a call for each kind, and that it takes each number and coordinate by itself, is the C interface, which may not change.

#![tactic(auto)]

ghost use Rattle.std.specs.Prelude.{◌≡◌, length, false};
ghost use Rattle.refusals.specs.Refusals.{checked};
ghost use Rattle.color_encoding.specs.Codes.{white_point_from, primaries_from, transfer_function_from, intent_from};
ghost use Rattle.color_encoding.specs.Codes.{gray_from, rgb_from, xyb_from};
ghost use Rattle.description_parser.specs.Parse.{parse};
ghost use Rattle.job.specs.Job as Job;
ghost use Rattle.job.specs.Job.{job_answer, entry_answer};
ghost use Rattle.job_output.specs.JobOutput.{ProfileOf};
ghost use Rattle.words.specs.Words.{be32};
ghost use Rattle.reader_spec.specs.Read as Read;
ghost use Rattle.reader_spec.specs.Finder as Finder;
ghost use Rattle.reading.specs.Reading.{reading};
ghost use Rattle.app2.specs.App2 as App2;
ghost use Rattle.app2.specs.App2.{written_segments, joined_file};
ghost use Rattle.coded_writer.specs.CodedWriter.{coded, plain, coded_by, WritesCode, MeasuresCode, WritesCounted, MeasuresCounted};
ghost use Rattle.host.specs.Host.{CountsEntries, profile_number, ReadsPlan, StoresEncoding, FindsElement, GivesNumber};

use color_encoding::{JxlColorEncoding, PrimariesXy, WhiteXy};
use refusals::Refusal;

// ---- a call's answer as one number

fn answered(answer: Result<u32, Refusal>) -> u32
    ensures { result ≡ App2.number (checked answer) }
{
    match answer {
        Ok(number) => number,
        Err(refusal) => refusal.number(),
    }
}

// ---- an encoding by its numbers, or 43

fn gray(
    white: u32,
    wx: f32,
    wy: f32,
    curve: u32,
    gamma: f32,
    intent: u32,
) -> Result<JxlColorEncoding, Refusal>
    ensures { checked result ≡ gray_from (white_point_from white wx wy) (transfer_function_from curve gamma) (intent_from intent) }
{
    encoding_codes::gray_from_numbers(white, WhiteXy { wx, wy }, curve, gamma, intent)
}

fn rgb(
    white: u32,
    wx: f32,
    wy: f32,
    primaries: u32,
    rx: f32,
    ry: f32,
    gx: f32,
    gy: f32,
    bx: f32,
    by: f32,
    curve: u32,
    gamma: f32,
    intent: u32,
) -> Result<JxlColorEncoding, Refusal>
    ensures { checked result ≡ rgb_from (white_point_from white wx wy) (primaries_from primaries rx ry gx gy bx by) (transfer_function_from curve gamma) (intent_from intent) }
{
    let own_white = WhiteXy { wx, wy };
    let own = PrimariesXy {
        rx,
        ry,
        gx,
        gy,
        bx,
        by,
    };
    encoding_codes::rgb_from_numbers(white, own_white, primaries, own, curve, gamma, intent)
}

// ---- the profile of an encoding

pub fn merqyduk_write_gray(
    white: u32,
    wx: f32,
    wy: f32,
    curve: u32,
    gamma: f32,
    intent: u32,
    out: &mut [u8],
) -> u32
    ensures { WritesCode (plain (gray_from (white_point_from white wx wy) (transfer_function_from curve gamma) (intent_from intent))) out.old out.new result }
{
    coded_writer::write(gray(white, wx, wy, curve, gamma, intent), 0, 0, out)
}

pub fn merqyduk_write_rgb(
    white: u32,
    wx: f32,
    wy: f32,
    primaries: u32,
    rx: f32,
    ry: f32,
    gx: f32,
    gy: f32,
    bx: f32,
    by: f32,
    curve: u32,
    gamma: f32,
    intent: u32,
    out: &mut [u8],
) -> u32
    ensures { WritesCode (plain (rgb_from (white_point_from white wx wy) (primaries_from primaries rx ry gx gy bx by) (transfer_function_from curve gamma) (intent_from intent))) out.old out.new result }
{
    coded_writer::write(
        rgb(
            white, wx, wy, primaries, rx, ry, gx, gy, bx, by, curve, gamma, intent,
        ),
        0,
        0,
        out,
    )
}

pub fn merqyduk_write_xyb(intent: u32, out: &mut [u8]) -> u32
    ensures { WritesCode (plain (xyb_from (intent_from intent))) out.old out.new result }
{
    coded_writer::write(encoding_codes::xyb_from_number(intent), 0, 0, out)
}

// ---- the same with maker and model, four bytes each, the first the most significant

pub fn merqyduk_write_gray_device(
    white: u32,
    wx: f32,
    wy: f32,
    curve: u32,
    gamma: f32,
    intent: u32,
    maker: u32,
    model: u32,
    out: &mut [u8],
) -> u32
    ensures { WritesCode (coded false maker model (gray_from (white_point_from white wx wy) (transfer_function_from curve gamma) (intent_from intent))) out.old out.new result }
{
    coded_writer::write(gray(white, wx, wy, curve, gamma, intent), maker, model, out)
}

pub fn merqyduk_write_rgb_device(
    white: u32,
    wx: f32,
    wy: f32,
    primaries: u32,
    rx: f32,
    ry: f32,
    gx: f32,
    gy: f32,
    bx: f32,
    by: f32,
    curve: u32,
    gamma: f32,
    intent: u32,
    maker: u32,
    model: u32,
    out: &mut [u8],
) -> u32
    ensures { WritesCode (coded false maker model (rgb_from (white_point_from white wx wy) (primaries_from primaries rx ry gx gy bx by) (transfer_function_from curve gamma) (intent_from intent))) out.old out.new result }
{
    coded_writer::write(
        rgb(
            white, wx, wy, primaries, rx, ry, gx, gy, bx, by, curve, gamma, intent,
        ),
        maker,
        model,
        out,
    )
}

pub fn merqyduk_write_xyb_device(intent: u32, maker: u32, model: u32, out: &mut [u8]) -> u32
    ensures { WritesCode (coded false maker model (xyb_from (intent_from intent))) out.old out.new result }
{
    coded_writer::write(encoding_codes::xyb_from_number(intent), maker, model, out)
}

// ---- the length of a profile, before there is memory for it

pub fn merqyduk_length_gray(
    white: u32,
    wx: f32,
    wy: f32,
    curve: u32,
    gamma: f32,
    intent: u32,
    capacity: usize,
) -> u32
    ensures { MeasuresCode (plain (gray_from (white_point_from white wx wy) (transfer_function_from curve gamma) (intent_from intent))) capacity result }
{
    coded_writer::length(gray(white, wx, wy, curve, gamma, intent), capacity)
}

pub fn merqyduk_length_rgb(
    white: u32,
    wx: f32,
    wy: f32,
    primaries: u32,
    rx: f32,
    ry: f32,
    gx: f32,
    gy: f32,
    bx: f32,
    by: f32,
    curve: u32,
    gamma: f32,
    intent: u32,
    capacity: usize,
) -> u32
    ensures { MeasuresCode (plain (rgb_from (white_point_from white wx wy) (primaries_from primaries rx ry gx gy bx by) (transfer_function_from curve gamma) (intent_from intent))) capacity result }
{
    coded_writer::length(
        rgb(
            white, wx, wy, primaries, rx, ry, gx, gy, bx, by, curve, gamma, intent,
        ),
        capacity,
    )
}

pub fn merqyduk_length_xyb(intent: u32, capacity: usize) -> u32
    ensures { MeasuresCode (plain (xyb_from (intent_from intent))) capacity result }
{
    coded_writer::length(encoding_codes::xyb_from_number(intent), capacity)
}

// ---- both with how many fixed numbers were rounded: in a lent number, which a refusal leaves as it was

pub fn merqyduk_write_gray_counted(
    white: u32,
    wx: f32,
    wy: f32,
    curve: u32,
    gamma: f32,
    intent: u32,
    out: &mut [u8],
    rounded: &mut u32,
) -> u32
    ensures { WritesCounted (plain (gray_from (white_point_from white wx wy) (transfer_function_from curve gamma) (intent_from intent))) out.old out.new rounded.old rounded.new result }
{
    coded_writer::write_counted(gray(white, wx, wy, curve, gamma, intent), out, rounded)
}

pub fn merqyduk_write_rgb_counted(
    white: u32,
    wx: f32,
    wy: f32,
    primaries: u32,
    rx: f32,
    ry: f32,
    gx: f32,
    gy: f32,
    bx: f32,
    by: f32,
    curve: u32,
    gamma: f32,
    intent: u32,
    out: &mut [u8],
    rounded: &mut u32,
) -> u32
    ensures { WritesCounted (plain (rgb_from (white_point_from white wx wy) (primaries_from primaries rx ry gx gy bx by) (transfer_function_from curve gamma) (intent_from intent))) out.old out.new rounded.old rounded.new result }
{
    coded_writer::write_counted(
        rgb(
            white, wx, wy, primaries, rx, ry, gx, gy, bx, by, curve, gamma, intent,
        ),
        out,
        rounded,
    )
}

pub fn merqyduk_write_xyb_counted(intent: u32, out: &mut [u8], rounded: &mut u32) -> u32
    ensures { WritesCounted (plain (xyb_from (intent_from intent))) out.old out.new rounded.old rounded.new result }
{
    coded_writer::write_counted(encoding_codes::xyb_from_number(intent), out, rounded)
}

pub fn merqyduk_length_gray_counted(
    white: u32,
    wx: f32,
    wy: f32,
    curve: u32,
    gamma: f32,
    intent: u32,
    capacity: usize,
    rounded: &mut u32,
) -> u32
    ensures { MeasuresCounted (plain (gray_from (white_point_from white wx wy) (transfer_function_from curve gamma) (intent_from intent))) capacity rounded.old rounded.new result }
{
    coded_writer::length_counted(gray(white, wx, wy, curve, gamma, intent), capacity, rounded)
}

pub fn merqyduk_length_rgb_counted(
    white: u32,
    wx: f32,
    wy: f32,
    primaries: u32,
    rx: f32,
    ry: f32,
    gx: f32,
    gy: f32,
    bx: f32,
    by: f32,
    curve: u32,
    gamma: f32,
    intent: u32,
    capacity: usize,
    rounded: &mut u32,
) -> u32
    ensures { MeasuresCounted (plain (rgb_from (white_point_from white wx wy) (primaries_from primaries rx ry gx gy bx by) (transfer_function_from curve gamma) (intent_from intent))) capacity rounded.old rounded.new result }
{
    coded_writer::length_counted(
        rgb(
            white, wx, wy, primaries, rx, ry, gx, gy, bx, by, curve, gamma, intent,
        ),
        capacity,
        rounded,
    )
}

pub fn merqyduk_length_xyb_counted(intent: u32, capacity: usize, rounded: &mut u32) -> u32
    ensures { MeasuresCounted (plain (xyb_from (intent_from intent))) capacity rounded.old rounded.new result }
{
    coded_writer::length_counted(encoding_codes::xyb_from_number(intent), capacity, rounded)
}

// ---- gray with the mark "adapted" as a number, 0 or 1, with maker and model and with the count

pub fn merqyduk_write_gray_adapted(
    white: u32,
    wx: f32,
    wy: f32,
    curve: u32,
    gamma: f32,
    intent: u32,
    adapted: u32,
    maker: u32,
    model: u32,
    out: &mut [u8],
    rounded: &mut u32,
) -> u32
    ensures { WritesCounted (coded_by adapted maker model (gray_from (white_point_from white wx wy) (transfer_function_from curve gamma) (intent_from intent))) out.old out.new rounded.old rounded.new result }
{
    coded_writer::write_adapted(
        gray(white, wx, wy, curve, gamma, intent),
        adapted,
        maker,
        model,
        out,
        rounded,
    )
}

pub fn merqyduk_length_gray_adapted(
    white: u32,
    wx: f32,
    wy: f32,
    curve: u32,
    gamma: f32,
    intent: u32,
    adapted: u32,
    capacity: usize,
    rounded: &mut u32,
) -> u32
    ensures { MeasuresCounted (coded_by adapted 0 0 (gray_from (white_point_from white wx wy) (transfer_function_from curve gamma) (intent_from intent))) capacity rounded.old rounded.new result }
{
    coded_writer::length_adapted(
        gray(white, wx, wy, curve, gamma, intent),
        adapted,
        capacity,
        rounded,
    )
}

// ---- the encoding that a typed text describes

fn store_encoding(text: &[u8], encoding: &mut [u8]) -> Result<u32, Refusal>
    ensures { StoresEncoding (parse text.now) encoding.old encoding.new (App2.number (checked result)) }
{
    let parsed = description_parser::parse_description(text)?;
    if encoding.len() < encoding_record::ENCODING_SIZE {
        return Err(Refusal::TooShort);
    }
    encoding_record::put_encoding_record(encoding, 0, parsed);
    Ok(0)
}

pub fn merqyduk_parse_description(text: &[u8], encoding: &mut [u8]) -> u32
    ensures { StoresEncoding (parse text.now) encoding.old encoding.new result }
{
    answered(store_encoding(text, encoding))
}

// ---- jobs

pub fn merqyduk_job(job: &[u8], entries: &mut u32) -> u32
    ensures { CountsEntries (job_answer (Job.job 1 job.now)) entries.old entries.new result }
{
    match job::entries(job) {
        Ok(n) => {
            *entries = n;
            0
        }
        Err(refusal) => refusal.number(),
    }
}

// The entries are numbered from 0 on, over all sections.
pub fn merqyduk_job_profile(job: &[u8], i: usize, out: &mut [u8]) -> u32
    ensures { ProfileOf profile_number (entry_answer (Job.job 1 job.now) i) out.old out.new result }
{
    match job_output::profile(job, i, out) {
        Ok(length) => length.unwrap_or(0),
        Err(refusal) => refusal.number(),
    }
}

// ---- files

fn store_plan(file: &[u8], plan: &mut [u8]) -> Result<u32, Refusal>
    ensures { ReadsPlan (reading (Read.read file.now)) plan.old plan.new (App2.number (checked result)) }
{
    let answer = reader::read(file)?;
    if plan.len() < plan_record::RECORD_SIZE {
        return Err(Refusal::TooShort);
    }
    plan_record::put_plan_record(plan, 0, answer);
    Ok(0)
}

pub fn merqyduk_read(file: &[u8], plan: &mut [u8]) -> u32
    ensures { ReadsPlan (reading (Read.read file.now)) plan.old plan.new result }
{
    answered(store_plan(file, plan))
}

// The signature is its four bytes as one number, the first byte the most significant.
pub fn merqyduk_find(file: &[u8], signature: u32, offset: &mut u32) -> u32
    ensures { FindsElement (Finder.found file.now (be32 signature)) offset.old offset.new result }
{
    let mut bytes = [0u8; 4];
    words::put_u32_be(&mut bytes, 0, signature);
    let Some(line) = reader::find_line(file, bytes) else {
        return 0;
    };
    if line.size != 0 {
        *offset = line.offset;
    }
    line.size
}

// ---- a profile in APP2 segments

pub fn merqyduk_write_segments(file: &[u8], size: usize, out: &mut [u8]) -> u32
    ensures { GivesNumber (written_segments file.now size (length out.old)) out.old out.new result }
{
    answered(segments_writer::write_segments(file, size, out))
}

pub fn merqyduk_join_segments(segments: &[u8], out: &mut [u8]) -> u32
    ensures { GivesNumber (joined_file segments.now (length out.old)) out.old out.new result }
{
    answered(segments_joiner::join_segments(segments, out))
}
