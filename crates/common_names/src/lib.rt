// The common names of RGB encodings, `get_color_encoding_description` of api/color.rs.

#![tactic(auto)]

ghost use Rattle.std.specs.Prelude.{option_map};
ghost use Rattle.common_names.specs.Common.{IsNamed};

use color_encoding::{
    JxlColorEncoding, JxlPrimaries, JxlTransferFunction, JxlWhitePoint, RenderingIntent,
};

// The common name that an encoding has.
pub fn common_name(encoding: JxlColorEncoding) -> Option<&'static str>
    ensures { IsNamed encoding (option_map (λ s. s.now) result) }
{
    match encoding {
        JxlColorEncoding::RgbColorSpace {
            white_point: JxlWhitePoint::D65,
            primaries: JxlPrimaries::SRGB,
            transfer_function: JxlTransferFunction::SRGB,
            rendering_intent: RenderingIntent::Perceptual,
        } => Some("sRGB"),
        JxlColorEncoding::RgbColorSpace {
            white_point: JxlWhitePoint::D65,
            primaries: JxlPrimaries::P3,
            transfer_function: JxlTransferFunction::SRGB,
            rendering_intent: RenderingIntent::Perceptual,
        } => Some("DisplayP3"),
        JxlColorEncoding::RgbColorSpace {
            white_point: JxlWhitePoint::D65,
            primaries: JxlPrimaries::BT2100,
            transfer_function: JxlTransferFunction::PQ,
            rendering_intent: RenderingIntent::Relative,
        } => Some("Rec2100PQ"),
        JxlColorEncoding::RgbColorSpace {
            white_point: JxlWhitePoint::D65,
            primaries: JxlPrimaries::BT2100,
            transfer_function: JxlTransferFunction::HLG,
            rendering_intent: RenderingIntent::Relative,
        } => Some("Rec2100HLG"),
        _ => None,
    }
}
