// The writer and the dry call for an encoding that comes by codes, their answer as one number: the length, or the number of a refusal, 43 first, where a
// code has no meaning. `host` has an entry for each kind over these.

#![tactic(auto)]

ghost use Rattle.std.specs.Prelude.{◌≡◌, false};
ghost use Rattle.refusals.specs.Refusals.{checked};
ghost use Rattle.writer.specs.Writer.{number, count_after};
ghost use Rattle.coded_writer.specs.CodedWriter.{coded, plain, coded_by, CreatesCode, MeasuresLength, WritesCode, MeasuresCode, WritesCounted, MeasuresCounted};

use color_encoding::JxlColorEncoding;
use encoding_plan::Encoding;
use refusals::Refusal;
use writer::Written;

// ---- the encoding that codes mean

fn coded(
    code: Result<JxlColorEncoding, Refusal>,
    maker: u32,
    model: u32,
    adapted: bool,
) -> Result<Encoding, Refusal>
    ensures { checked result ≡ coded adapted maker model (checked code) }
{
    Ok(Encoding {
        color: code?,
        maker,
        model,
        adapted,
    })
}

// The mark "adapted" comes as a number, 0 or 1.
fn marked(
    code: Result<JxlColorEncoding, Refusal>,
    maker: u32,
    model: u32,
    adapted: u32,
) -> Result<Encoding, Refusal>
    ensures { checked result ≡ coded_by adapted maker model (checked code) }
{
    if adapted > 1 {
        return Err(Refusal::Unknown);
    }
    coded(code, maker, model, adapted == 1)
}

// ---- the writer's answer to it, and that answer as one number

fn created(code: Result<Encoding, Refusal>, out: &mut [u8]) -> Result<Written, Refusal>
    ensures { CreatesCode (checked code) out.old out.new (checked result) }
{
    writer::maybe_create_profile(code?, out)
}

fn measured(code: Result<Encoding, Refusal>, capacity: usize) -> Result<Written, Refusal>
    ensures { MeasuresLength (checked code) capacity (checked result) }
{
    writer::profile_length(code?, capacity)
}

fn number_of(answer: Result<Written, Refusal>) -> u32
    ensures { result ≡ number (checked answer) }
{
    match answer {
        Ok(written) => written.length,
        Err(refusal) => refusal.number(),
    }
}

// With how many fixed numbers were rounded in a lent number, which a refusal leaves as it was.
fn answered(answer: Result<Written, Refusal>, rounded: &mut u32) -> u32
    ensures { (result ≡ number (checked answer)) × (rounded.new ≡ count_after (checked answer) rounded.old) }
{
    if let Ok(written) = answer {
        *rounded = written.rounded;
    }
    number_of(answer)
}

// ---- the calls

// Writes the profile, with this maker and this model.
pub fn write(code: Result<JxlColorEncoding, Refusal>, maker: u32, model: u32, out: &mut [u8]) -> u32
    ensures { WritesCode (coded false maker model (checked code)) out.old out.new result }
{
    number_of(created(coded(code, maker, model, false), out))
}

// The profile's length, before there is memory for it.
pub fn length(code: Result<JxlColorEncoding, Refusal>, capacity: usize) -> u32
    ensures { MeasuresCode (plain (checked code)) capacity result }
{
    number_of(measured(coded(code, 0, 0, false), capacity))
}

// ---- both with the count; maker and model are zero

pub fn write_counted(
    code: Result<JxlColorEncoding, Refusal>,
    out: &mut [u8],
    rounded: &mut u32,
) -> u32
    ensures { WritesCounted (plain (checked code)) out.old out.new rounded.old rounded.new result }
{
    answered(created(coded(code, 0, 0, false), out), rounded)
}

pub fn length_counted(
    code: Result<JxlColorEncoding, Refusal>,
    capacity: usize,
    rounded: &mut u32,
) -> u32
    ensures { MeasuresCounted (plain (checked code)) capacity rounded.old rounded.new result }
{
    answered(measured(coded(code, 0, 0, false), capacity), rounded)
}

// ---- the same with the mark "adapted", and with maker and model

pub fn write_adapted(
    code: Result<JxlColorEncoding, Refusal>,
    adapted: u32,
    maker: u32,
    model: u32,
    out: &mut [u8],
    rounded: &mut u32,
) -> u32
    ensures { WritesCounted (coded_by adapted maker model (checked code)) out.old out.new rounded.old rounded.new result }
{
    answered(created(marked(code, maker, model, adapted), out), rounded)
}

// The answer does not depend on maker and model.
pub fn length_adapted(
    code: Result<JxlColorEncoding, Refusal>,
    adapted: u32,
    capacity: usize,
    rounded: &mut u32,
) -> u32
    ensures { MeasuresCounted (coded_by adapted 0 0 (checked code)) capacity rounded.old rounded.new result }
{
    answered(measured(marked(code, 0, 0, adapted), capacity), rounded)
}
