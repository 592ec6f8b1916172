// The library for C and C++: include/merqyduk.h declares these entries. Each is the function of its name in `host`, and promises what that does. A slice
// comes as a pointer and a length.

#![tactic(auto)]

ghost use Rattle.std.specs.Prelude.{length, false};
ghost use Rattle.color_encoding.specs.Codes.{white_point_from, primaries_from, transfer_function_from, intent_from};
ghost use Rattle.color_encoding.specs.Codes.{gray_from, rgb_from, xyb_from};
ghost use Rattle.description_parser.specs.Parse.{parse};
ghost use Rattle.job.specs.Job as Job;
ghost use Rattle.job.specs.Job.{job_answer, entry_answer};
ghost use Rattle.job_output.specs.JobOutput.{ProfileOf};
ghost use Rattle.words.specs.Words.{be32};
ghost use Rattle.reader_spec.specs.Read as Read;
ghost use Rattle.reader_spec.specs.Finder as Finder;
ghost use Rattle.reading.specs.Reading.{reading};
ghost use Rattle.app2.specs.App2.{written_segments, joined_file};
ghost use Rattle.coded_writer.specs.CodedWriter.{coded, plain, coded_by, WritesCode, MeasuresCode, WritesCounted, MeasuresCounted};
ghost use Rattle.host.specs.Host.{CountsEntries, profile_number, ReadsPlan, StoresEncoding, FindsElement, GivesNumber};

// ---- the profile of an encoding

#[unsafe(no_mangle)]
pub extern "C" fn merqyduk_write_gray(
    white: u32,
    wx: f32,
    wy: f32,
    curve: u32,
    gamma: f32,
    intent: u32,
    out: &mut [u8],
) -> u32
    ensures { WritesCode (plain (gray_from (white_point_from white wx wy) (transfer_function_from curve gamma) (intent_from intent))) out.old out.new result }
{
    host::merqyduk_write_gray(white, wx, wy, curve, gamma, intent, out)
}

#[unsafe(no_mangle)]
pub extern "C" fn merqyduk_write_rgb(
    white: u32,
    wx: f32,
    wy: f32,
    primaries: u32,
    rx: f32,
    ry: f32,
    gx: f32,
    gy: f32,
    bx: f32,
    by: f32,
    curve: u32,
    gamma: f32,
    intent: u32,
    out: &mut [u8],
) -> u32
    ensures { WritesCode (plain (rgb_from (white_point_from white wx wy) (primaries_from primaries rx ry gx gy bx by) (transfer_function_from curve gamma) (intent_from intent))) out.old out.new result }
{
    host::merqyduk_write_rgb(
        white, wx, wy, primaries, rx, ry, gx, gy, bx, by, curve, gamma, intent, out,
    )
}

#[unsafe(no_mangle)]
pub extern "C" fn merqyduk_write_xyb(intent: u32, out: &mut [u8]) -> u32
    ensures { WritesCode (plain (xyb_from (intent_from intent))) out.old out.new result }
{
    host::merqyduk_write_xyb(intent, out)
}

// ---- the same with maker and model, four bytes each, the first the most significant

#[unsafe(no_mangle)]
pub extern "C" fn merqyduk_write_gray_device(
    white: u32,
    wx: f32,
    wy: f32,
    curve: u32,
    gamma: f32,
    intent: u32,
    maker: u32,
    model: u32,
    out: &mut [u8],
) -> u32
    ensures { WritesCode (coded false maker model (gray_from (white_point_from white wx wy) (transfer_function_from curve gamma) (intent_from intent))) out.old out.new result }
{
    host::merqyduk_write_gray_device(white, wx, wy, curve, gamma, intent, maker, model, out)
}

#[unsafe(no_mangle)]
pub extern "C" fn merqyduk_write_rgb_device(
    white: u32,
    wx: f32,
    wy: f32,
    primaries: u32,
    rx: f32,
    ry: f32,
    gx: f32,
    gy: f32,
    bx: f32,
    by: f32,
    curve: u32,
    gamma: f32,
    intent: u32,
    maker: u32,
    model: u32,
    out: &mut [u8],
) -> u32
    ensures { WritesCode (coded false maker model (rgb_from (white_point_from white wx wy) (primaries_from primaries rx ry gx gy bx by) (transfer_function_from curve gamma) (intent_from intent))) out.old out.new result }
{
    host::merqyduk_write_rgb_device(
        white, wx, wy, primaries, rx, ry, gx, gy, bx, by, curve, gamma, intent, maker, model, out,
    )
}

#[unsafe(no_mangle)]
pub extern "C" fn merqyduk_write_xyb_device(
    intent: u32,
    maker: u32,
    model: u32,
    out: &mut [u8],
) -> u32
    ensures { WritesCode (coded false maker model (xyb_from (intent_from intent))) out.old out.new result }
{
    host::merqyduk_write_xyb_device(intent, maker, model, out)
}

// ---- the length of a profile, before there is memory for it

#[unsafe(no_mangle)]
pub extern "C" fn merqyduk_length_gray(
    white: u32,
    wx: f32,
    wy: f32,
    curve: u32,
    gamma: f32,
    intent: u32,
    capacity: usize,
) -> u32
    ensures { MeasuresCode (plain (gray_from (white_point_from white wx wy) (transfer_function_from curve gamma) (intent_from intent))) capacity result }
{
    host::merqyduk_length_gray(white, wx, wy, curve, gamma, intent, capacity)
}

#[unsafe(no_mangle)]
pub extern "C" fn merqyduk_length_rgb(
    white: u32,
    wx: f32,
    wy: f32,
    primaries: u32,
    rx: f32,
    ry: f32,
    gx: f32,
    gy: f32,
    bx: f32,
    by: f32,
    curve: u32,
    gamma: f32,
    intent: u32,
    capacity: usize,
) -> u32
    ensures { MeasuresCode (plain (rgb_from (white_point_from white wx wy) (primaries_from primaries rx ry gx gy bx by) (transfer_function_from curve gamma) (intent_from intent))) capacity result }
{
    host::merqyduk_length_rgb(
        white, wx, wy, primaries, rx, ry, gx, gy, bx, by, curve, gamma, intent, capacity,
    )
}

#[unsafe(no_mangle)]
pub extern "C" fn merqyduk_length_xyb(intent: u32, capacity: usize) -> u32
    ensures { MeasuresCode (plain (xyb_from (intent_from intent))) capacity result }
{
    host::merqyduk_length_xyb(intent, capacity)
}

// ---- both with how many fixed numbers were rounded: in a lent number, which a refusal leaves as it was

#[unsafe(no_mangle)]
pub extern "C" fn merqyduk_write_gray_counted(
    white: u32,
    wx: f32,
    wy: f32,
    curve: u32,
    gamma: f32,
    intent: u32,
    out: &mut [u8],
    rounded: &mut u32,
) -> u32
    ensures { WritesCounted (plain (gray_from (white_point_from white wx wy) (transfer_function_from curve gamma) (intent_from intent))) out.old out.new rounded.old rounded.new result }
{
    host::merqyduk_write_gray_counted(white, wx, wy, curve, gamma, intent, out, rounded)
}

#[unsafe(no_mangle)]
pub extern "C" fn merqyduk_write_rgb_counted(
    white: u32,
    wx: f32,
    wy: f32,
    primaries: u32,
    rx: f32,
    ry: f32,
    gx: f32,
    gy: f32,
    bx: f32,
    by: f32,
    curve: u32,
    gamma: f32,
    intent: u32,
    out: &mut [u8],
    rounded: &mut u32,
) -> u32
    ensures { WritesCounted (plain (rgb_from (white_point_from white wx wy) (primaries_from primaries rx ry gx gy bx by) (transfer_function_from curve gamma) (intent_from intent))) out.old out.new rounded.old rounded.new result }
{
    host::merqyduk_write_rgb_counted(
        white, wx, wy, primaries, rx, ry, gx, gy, bx, by, curve, gamma, intent, out, rounded,
    )
}

#[unsafe(no_mangle)]
pub extern "C" fn merqyduk_write_xyb_counted(intent: u32, out: &mut [u8], rounded: &mut u32) -> u32
    ensures { WritesCounted (plain (xyb_from (intent_from intent))) out.old out.new rounded.old rounded.new result }
{
    host::merqyduk_write_xyb_counted(intent, out, rounded)
}

#[unsafe(no_mangle)]
pub extern "C" fn merqyduk_length_gray_counted(
    white: u32,
    wx: f32,
    wy: f32,
    curve: u32,
    gamma: f32,
    intent: u32,
    capacity: usize,
    rounded: &mut u32,
) -> u32
    ensures { MeasuresCounted (plain (gray_from (white_point_from white wx wy) (transfer_function_from curve gamma) (intent_from intent))) capacity rounded.old rounded.new result }
{
    host::merqyduk_length_gray_counted(white, wx, wy, curve, gamma, intent, capacity, rounded)
}

#[unsafe(no_mangle)]
pub extern "C" fn merqyduk_length_rgb_counted(
    white: u32,
    wx: f32,
    wy: f32,
    primaries: u32,
    rx: f32,
    ry: f32,
    gx: f32,
    gy: f32,
    bx: f32,
    by: f32,
    curve: u32,
    gamma: f32,
    intent: u32,
    capacity: usize,
    rounded: &mut u32,
) -> u32
    ensures { MeasuresCounted (plain (rgb_from (white_point_from white wx wy) (primaries_from primaries rx ry gx gy bx by) (transfer_function_from curve gamma) (intent_from intent))) capacity rounded.old rounded.new result }
{
    host::merqyduk_length_rgb_counted(
        white, wx, wy, primaries, rx, ry, gx, gy, bx, by, curve, gamma, intent, capacity, rounded,
    )
}

#[unsafe(no_mangle)]
pub extern "C" fn merqyduk_length_xyb_counted(
    intent: u32,
    capacity: usize,
    rounded: &mut u32,
) -> u32
    ensures { MeasuresCounted (plain (xyb_from (intent_from intent))) capacity rounded.old rounded.new result }
{
    host::merqyduk_length_xyb_counted(intent, capacity, rounded)
}

// ---- gray with the mark "adapted" as a number, 0 or 1, with maker and model and with the count

#[unsafe(no_mangle)]
pub extern "C" fn merqyduk_write_gray_adapted(
    white: u32,
    wx: f32,
    wy: f32,
    curve: u32,
    gamma: f32,
    intent: u32,
    adapted: u32,
    maker: u32,
    model: u32,
    out: &mut [u8],
    rounded: &mut u32,
) -> u32
    ensures { WritesCounted (coded_by adapted maker model (gray_from (white_point_from white wx wy) (transfer_function_from curve gamma) (intent_from intent))) out.old out.new rounded.old rounded.new result }
{
    host::merqyduk_write_gray_adapted(
        white, wx, wy, curve, gamma, intent, adapted, maker, model, out, rounded,
    )
}

#[unsafe(no_mangle)]
pub extern "C" fn merqyduk_length_gray_adapted(
    white: u32,
    wx: f32,
    wy: f32,
    curve: u32,
    gamma: f32,
    intent: u32,
    adapted: u32,
    capacity: usize,
    rounded: &mut u32,
) -> u32
    ensures { MeasuresCounted (coded_by adapted 0 0 (gray_from (white_point_from white wx wy) (transfer_function_from curve gamma) (intent_from intent))) capacity rounded.old rounded.new result }
{
    host::merqyduk_length_gray_adapted(
        white, wx, wy, curve, gamma, intent, adapted, capacity, rounded,
    )
}

// ---- the encoding that a typed text describes

#[unsafe(no_mangle)]
pub extern "C" fn merqyduk_parse_description(text: &[u8], encoding: &mut [u8]) -> u32
    ensures { StoresEncoding (parse text.now) encoding.old encoding.new result }
{
    host::merqyduk_parse_description(text, encoding)
}

// ---- jobs

#[unsafe(no_mangle)]
pub extern "C" fn merqyduk_job(job: &[u8], entries: &mut u32) -> u32
    ensures { CountsEntries (job_answer (Job.job 1 job.now)) entries.old entries.new result }
{
    host::merqyduk_job(job, entries)
}

// The entries are numbered from 0 on, over all sections.
#[unsafe(no_mangle)]
pub extern "C" fn merqyduk_job_profile(job: &[u8], i: usize, out: &mut [u8]) -> u32
    ensures { ProfileOf profile_number (entry_answer (Job.job 1 job.now) i) out.old out.new result }
{
    host::merqyduk_job_profile(job, i, out)
}

// ---- files

#[unsafe(no_mangle)]
pub extern "C" fn merqyduk_read(file: &[u8], plan: &mut [u8]) -> u32
    ensures { ReadsPlan (reading (Read.read file.now)) plan.old plan.new result }
{
    host::merqyduk_read(file, plan)
}

// The signature is its four bytes as one number, the first byte the most significant.
#[unsafe(no_mangle)]
pub extern "C" fn merqyduk_find(file: &[u8], signature: u32, offset: &mut u32) -> u32
    ensures { FindsElement (Finder.found file.now (be32 signature)) offset.old offset.new result }
{
    host::merqyduk_find(file, signature, offset)
}

// ---- a profile in APP2 segments

#[unsafe(no_mangle)]
pub extern "C" fn merqyduk_write_segments(file: &[u8], size: usize, out: &mut [u8]) -> u32
    ensures { GivesNumber (written_segments file.now size (length out.old)) out.old out.new result }
{
    host::merqyduk_write_segments(file, size, out)
}

#[unsafe(no_mangle)]
pub extern "C" fn merqyduk_join_segments(segments: &[u8], out: &mut [u8]) -> u32
    ensures { GivesNumber (joined_file segments.now (length out.old)) out.old out.new result }
{
    host::merqyduk_join_segments(segments, out)
}
