// The writer of profiles: `maybe_create_profile` of api/color.rs, and what it would answer, without an output.

#![tactic(auto)]

ghost use Rattle.std.specs.Prelude.{◌≡◌, length, ◌≤◌};
ghost use Rattle.buffer.specs.Buffer.{put};
ghost use Rattle.buffer.specs.Checked.{is};
ghost use Rattle.refusals.specs.Refusals.{checked};
ghost use Rattle.profile.specs.Layout.{layout};
ghost use Rattle.profile.specs.Numbers as Plans;
ghost use Rattle.text.specs.Description.{description};
ghost use Rattle.text.specs.Held.{WhiteInRange};
ghost use Rattle.encoding_plan.specs.Answers.{described};
ghost use Rattle.encoding_plan.specs.FixedFloats.{counted_color_plan};
ghost use Rattle.writer.specs.Writer.{answer, MeasuresProfile, Creates};

use color_encoding::JxlColorEncoding;
use encoding_plan::Encoding;
use numbers::Counted;
use profile::Numbers;
use refusals::Refusal;

// The most bytes that any profile has.
pub const MAX_WRITTEN: usize = 1200;

// The length of a written profile and how many of its fixed numbers were rounded.
#[derive(Clone, Copy, Debug, PartialEq, Eq)]
pub struct Written {
    pub length: u32,
    pub rounded: u32,
}

// What the writer answers to a plan where the output has `capacity` bytes. Here alone it is decided.
fn answer(
    encoding: Encoding,
    planned: Counted<Numbers>,
    capacity: usize,
) -> Result<Written, Refusal>
    requires { described encoding.color (is planned) ≡ counted_color_plan encoding.adapted encoding.color }
    ensures { checked result ≡ answer (counted_color_plan encoding.adapted encoding.color) capacity }
{
    let letters = description_length::description_length(encoding.color);
    let size = layout::length(profile::shape_of(planned.value, letters));
    if capacity < size {
        return Err(Refusal::TooShort);
    }
    Ok(Written {
        length: size as u32,
        rounded: planned.rounded,
    })
}

// Lays the plan of an encoding out, whose profile has `size` bytes.
fn put_profile(encoding: JxlColorEncoding, plan: Numbers, size: usize, out: &mut [u8])
    requires { WhiteInRange encoding × (size ≡ length (layout (Plans.plan_of plan (description encoding)))) × (size ≤ length out.old) }
    ensures { out.new ≡ put out.old 0 (layout (Plans.plan_of plan (description encoding))) }
{
    let mut bytes = [0u8; text::MAX_BYTES];
    let len = text::put_description(&mut bytes, encoding);
    layout::put_plan(out, plan, &bytes[..len], size);
}

// What `maybe_create_profile` answers where the output has `capacity` bytes: the profile's length, before there is memory for it.
pub fn profile_length(encoding: Encoding, capacity: usize) -> Result<Written, Refusal>
    ensures { MeasuresProfile encoding capacity (checked result) }
{
    let planned = encoding_plan::plan_of(encoding.color, encoding.adapted)?;
    answer(encoding, planned, capacity)
}

// Writes the profile of an encoding, with its maker and model, to the front of the output. On a refusal no byte of the output changes.
pub fn maybe_create_profile(encoding: Encoding, out: &mut [u8]) -> Result<Written, Refusal>
    ensures { Creates encoding out.old out.new (checked result) }
{
    let color = encoding.color;
    let planned = encoding_plan::plan_of(color, encoding.adapted)?;
    let written = answer(encoding, planned, out.len())?;
    let plan = planned.value.with_device(encoding.maker, encoding.model);
    put_profile(color, plan, written.length as usize, out);
    Ok(written)
}
