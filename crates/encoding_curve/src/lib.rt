// The curve of an encoding, and its `cicp` primaries value.

#![tactic(auto)]

ghost use Rattle.std.specs.Prelude.{◌≡◌};
ghost use Rattle.numbers.specs.Rounded.{rounded_in, counted};
ghost use Rattle.profile.specs.FixedConstants.{parameter_floats};
ghost use Rattle.refusals.specs.Refusals.{checked};
ghost use Rattle.encoding_curve.specs.CurveOf.{supported, curve_of, curve_floats, cicp_of};

use color_encoding::{JxlPrimaries, JxlTransferFunction, JxlWhitePoint};
use numbers::Counted;
use profile::{Curve, CurveName};
use refusals::Refusal;

// A transfer function that a profile can have: a named curve, or a gamma g.
#[derive(Clone, Copy, Debug, PartialEq)]
pub enum SupportedCurve {
    Named(CurveName),
    Gamma(f32),
}

pub fn supported(transfer: JxlTransferFunction) -> Result<SupportedCurve, Refusal>
    ensures { checked result ≡ supported transfer }
{
    match transfer {
        JxlTransferFunction::BT709 => Ok(SupportedCurve::Named(CurveName::BT709)),
        JxlTransferFunction::Linear => Ok(SupportedCurve::Named(CurveName::Linear)),
        JxlTransferFunction::SRGB => Ok(SupportedCurve::Named(CurveName::SRGB)),
        JxlTransferFunction::DCI => Ok(SupportedCurve::Named(CurveName::DCI)),
        JxlTransferFunction::Gamma(g) => Ok(SupportedCurve::Gamma(g)),
        JxlTransferFunction::PQ | JxlTransferFunction::HLG => {
            Err(Refusal::UnsupportedTransferFunction)
        }
    }
}

// How many of the five numbers of a named curve are rounded.
fn named_rounded(name: CurveName) -> u32
    ensures { result ≡ rounded_in (parameter_floats name) }
{
    match name {
        CurveName::BT709 => 5,
        CurveName::Linear => 0,
        CurveName::SRGB => 5,
        CurveName::DCI => 1,
    }
}

// A curve and how many of its numbers were rounded; a gamma's reciprocal may not fit.
pub fn curve_of(curve: SupportedCurve) -> Result<Counted<Curve>, Refusal>
    ensures { checked result ≡ counted (curve_floats curve) (curve_of curve) }
{
    match curve {
        SupportedCurve::Named(name) => Ok(Counted {
            value: Curve::Named(name),
            rounded: named_rounded(name),
        }),
        SupportedCurve::Gamma(g) => {
            let reciprocal = numbers::to_s15_fixed_16(1.0 / g).ok_or(Refusal::GammaOutOfRange)?;
            Ok(Counted {
                value: Curve::Gamma(reciprocal.number),
                rounded: numbers::one_if_rounded(reciprocal.whole),
            })
        }
    }
}

// The primaries value of the `cicp` tag: the four pairs that H.273 names, beside a named curve.
pub fn cicp_of(white: JxlWhitePoint, primaries: JxlPrimaries, curve: Curve) -> Option<u8>
    ensures { result ≡ cicp_of white primaries curve }
{
    match (curve, white, primaries) {
        (Curve::Gamma(_), _, _) => None,
        (_, JxlWhitePoint::D65, JxlPrimaries::SRGB) => Some(1),
        (_, JxlWhitePoint::D65, JxlPrimaries::BT2100) => Some(9),
        (_, JxlWhitePoint::D65, JxlPrimaries::P3) => Some(12),
        (_, JxlWhitePoint::DCI, JxlPrimaries::P3) => Some(11),
        _ => None,
    }
}
