// The color encoding that the codes or the numbers of its parts give together, or that one of them has no meaning.

#![tactic(auto)]

ghost use Rattle.std.specs.Prelude.{◌≡◌};
ghost use Rattle.color_encoding.specs.Codes.{white_point_from, primaries_from, transfer_function_from, intent_from};
ghost use Rattle.color_encoding.specs.Codes.{gray_from, rgb_from, xyb_from};
ghost use Rattle.refusals.specs.Refusals.{checked};

use color_encoding::{
    JxlColorEncoding, JxlPrimaries, JxlTransferFunction, JxlWhitePoint, PrimariesXy,
    RenderingIntent, WhiteXy,
};
use refusals::Refusal;

// ---- by codes

pub fn gray_from_codes(
    white: Result<JxlWhitePoint, Refusal>,
    transfer: Result<JxlTransferFunction, Refusal>,
    intent: Result<RenderingIntent, Refusal>,
) -> Result<JxlColorEncoding, Refusal>
    ensures { checked result ≡ gray_from (checked white) (checked transfer) (checked intent) }
{
    Ok(JxlColorEncoding::GrayscaleColorSpace {
        white_point: white?,
        transfer_function: transfer?,
        rendering_intent: intent?,
    })
}

pub fn rgb_from_codes(
    white: Result<JxlWhitePoint, Refusal>,
    primaries: Result<JxlPrimaries, Refusal>,
    transfer: Result<JxlTransferFunction, Refusal>,
    intent: Result<RenderingIntent, Refusal>,
) -> Result<JxlColorEncoding, Refusal>
    ensures { checked result ≡ rgb_from (checked white) (checked primaries) (checked transfer) (checked intent) }
{
    Ok(JxlColorEncoding::RgbColorSpace {
        white_point: white?,
        primaries: primaries?,
        transfer_function: transfer?,
        rendering_intent: intent?,
    })
}

pub fn xyb_from_code(intent: Result<RenderingIntent, Refusal>) -> Result<JxlColorEncoding, Refusal>
    ensures { checked result ≡ xyb_from (checked intent) }
{
    Ok(JxlColorEncoding::XYB {
        rendering_intent: intent?,
    })
}

// ---- by numbers; the coordinates are read only for a white point or primaries of one's own

pub fn gray_from_numbers(
    white: u32,
    own: WhiteXy,
    curve: u32,
    gamma: f32,
    intent: u32,
) -> Result<JxlColorEncoding, Refusal>
    ensures { checked result ≡ gray_from (white_point_from white own.wx own.wy) (transfer_function_from curve gamma) (intent_from intent) }
{
    let transfer = JxlTransferFunction::from_number(curve, gamma);
    gray_from_codes(
        JxlWhitePoint::from_number(white, own),
        transfer,
        RenderingIntent::try_from(intent),
    )
}

pub fn rgb_from_numbers(
    white: u32,
    own_white: WhiteXy,
    primaries: u32,
    own: PrimariesXy,
    curve: u32,
    gamma: f32,
    intent: u32,
) -> Result<JxlColorEncoding, Refusal>
    ensures { checked result ≡ rgb_from (white_point_from white own_white.wx own_white.wy) (primaries_from primaries own.rx own.ry own.gx own.gy own.bx own.by) (transfer_function_from curve gamma) (intent_from intent) }
{
    rgb_from_codes(
        JxlWhitePoint::from_number(white, own_white),
        JxlPrimaries::from_number(primaries, own),
        JxlTransferFunction::from_number(curve, gamma),
        RenderingIntent::try_from(intent),
    )
}

pub fn xyb_from_number(intent: u32) -> Result<JxlColorEncoding, Refusal>
    ensures { checked result ≡ xyb_from (intent_from intent) }
{
    xyb_from_code(RenderingIntent::try_from(intent))
}
