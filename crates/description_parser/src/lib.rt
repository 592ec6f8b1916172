// The description of an encoding, read back into an encoding. Each function that reads answers what it found and the place after it.

#![tactic(auto)]

ghost use Rattle.std.specs.Prelude.{◌≡◌, drop};
ghost use Rattle.refusals.specs.Refusals.{checked};
ghost use Rattle.scanner.specs.Places.{found_at};
ghost use Rattle.description_parser.specs.Language.{zero_transfer, zero_gamma};
ghost use Rattle.description_parser.specs.Parse.{ending, rgb, gray, xyb, common, encoding, parse};

use color_encoding::{
    JxlColorEncoding, JxlPrimaries, JxlTransferFunction, JxlWhitePoint, RenderingIntent,
};
use common_names::common_name;
use names_parser::{intent_at, primaries_at, transfer_at, white_at};
use refusals::Refusal;
use scanner::{past, value_at};

// ---- the long forms

// The end of a long form: an underscore and the intent, an underscore and the curve.
#[tactic(auto, unfolding(crate::specs::Parse::ending))]
fn end_at(text: &[u8], at: usize) -> Option<((RenderingIntent, JxlTransferFunction), usize)>
    ensures { found_at text.now result ≡ ending (drop at text.now) }
{
    let next = past(text, at, b"_")?;
    let (rendering_intent, next) = intent_at(text, next)?;
    let next = past(text, next, b"_")?;
    let (transfer_function, next) = transfer_at(text, next)?;
    Some(((rendering_intent, transfer_function), next))
}

// White, primaries, intent, curve; nothing where a common name replaces the long form.
#[tactic(auto, unfolding(crate::specs::Parse::ending, crate::specs::Parse::rgb, crate::specs::Parse::rgb_fields))]
fn rgb_at(text: &[u8]) -> Option<(JxlColorEncoding, usize)>
    ensures { found_at text.now result ≡ rgb text.now }
{
    let next = past(text, 0, b"RGB_")?;
    let (white_point, next) = white_at(text, next)?;
    let next = past(text, next, b"_")?;
    let (primaries, next) = primaries_at(text, next)?;
    let ((rendering_intent, transfer_function), next) = end_at(text, next)?;
    let encoding = JxlColorEncoding::RgbColorSpace {
        white_point,
        primaries,
        transfer_function,
        rendering_intent,
    };
    match common_name(encoding) {
        Some(_) => None,
        None => Some((encoding, next)),
    }
}

// White, intent, curve.
#[tactic(auto, unfolding(crate::specs::Parse::ending, crate::specs::Parse::gray, crate::specs::Parse::gray_fields))]
fn gray_at(text: &[u8]) -> Option<(JxlColorEncoding, usize)>
    ensures { found_at text.now result ≡ gray text.now }
{
    let next = past(text, 0, b"Gra_")?;
    let (white_point, next) = white_at(text, next)?;
    let ((rendering_intent, transfer_function), next) = end_at(text, next)?;
    let encoding = JxlColorEncoding::GrayscaleColorSpace {
        white_point,
        transfer_function,
        rendering_intent,
    };
    Some((encoding, next))
}

#[tactic(auto, unfolding(crate::specs::Parse::xyb))]
fn xyb_at(text: &[u8]) -> Option<(JxlColorEncoding, usize)>
    ensures { found_at text.now result ≡ xyb text.now }
{
    let next = past(text, 0, b"XYB_")?;
    let (rendering_intent, next) = intent_at(text, next)?;
    Some((JxlColorEncoding::XYB { rendering_intent }, next))
}

// ---- the common names

const COMMON: [(&str, JxlColorEncoding); 4] = [
    (
        "sRGB",
        JxlColorEncoding::RgbColorSpace {
            white_point: JxlWhitePoint::D65,
            primaries: JxlPrimaries::SRGB,
            transfer_function: JxlTransferFunction::SRGB,
            rendering_intent: RenderingIntent::Perceptual,
        },
    ),
    (
        "DisplayP3",
        JxlColorEncoding::RgbColorSpace {
            white_point: JxlWhitePoint::D65,
            primaries: JxlPrimaries::P3,
            transfer_function: JxlTransferFunction::SRGB,
            rendering_intent: RenderingIntent::Perceptual,
        },
    ),
    (
        "Rec2100PQ",
        JxlColorEncoding::RgbColorSpace {
            white_point: JxlWhitePoint::D65,
            primaries: JxlPrimaries::BT2100,
            transfer_function: JxlTransferFunction::PQ,
            rendering_intent: RenderingIntent::Relative,
        },
    ),
    (
        "Rec2100HLG",
        JxlColorEncoding::RgbColorSpace {
            white_point: JxlWhitePoint::D65,
            primaries: JxlPrimaries::BT2100,
            transfer_function: JxlTransferFunction::HLG,
            rendering_intent: RenderingIntent::Relative,
        },
    ),
];

#[tactic(auto, unfolding(crate::specs::Parse::common))]
fn common_at(text: &[u8]) -> Option<(JxlColorEncoding, usize)>
    ensures { found_at text.now result ≡ common text.now }
{
    value_at(text, 0, &COMMON)
}

// ---- the whole

#[tactic(auto, unfolding(crate::specs::Parse::encoding))]
fn encoding_at(text: &[u8]) -> Option<(JxlColorEncoding, usize)>
    ensures { found_at text.now result ≡ encoding text.now }
{
    rgb_at(text)
        .or_else(|| gray_at(text))
        .or_else(|| xyb_at(text))
        .or_else(|| common_at(text))
}

// Whether a gamma is zero, of either sign.
#[tactic(auto, using(crate::specs::StepLaws::zero_is))]
fn zero_transfer(transfer: JxlTransferFunction) -> bool
    ensures { result ≡ zero_transfer transfer }
{
    match transfer {
        JxlTransferFunction::Gamma(g) => g == 0.0,
        _ => false,
    }
}

fn zero_gamma(encoding: JxlColorEncoding) -> bool
    ensures { result ≡ zero_gamma encoding }
{
    match encoding {
        JxlColorEncoding::RgbColorSpace {
            transfer_function,
            ..
        }
        | JxlColorEncoding::GrayscaleColorSpace {
            transfer_function,
            ..
        } => zero_transfer(transfer_function),
        JxlColorEncoding::XYB { .. } => false,
    }
}

// The encoding that a text describes: nothing may follow it, and its gamma is not zero.
#[tactic(auto, using(crate::specs::StepLaws::more_left, crate::specs::StepLaws::ends), unfolding(crate::specs::Parse::parse))]
pub fn parse_description(text: &[u8]) -> Result<JxlColorEncoding, Refusal>
    ensures { checked result ≡ parse text.now }
{
    match encoding_at(text) {
        Some((_, next)) if next < text.len() => Err(Refusal::NotInLanguage),
        Some((encoding, _)) if zero_gamma(encoding) => Err(Refusal::GammaIsZero),
        Some((encoding, _)) => Ok(encoding),
        None => Err(Refusal::NotInLanguage),
    }
}
