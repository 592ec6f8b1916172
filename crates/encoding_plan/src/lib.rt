// The plan of an encoding, or its refusal: of its color encoding, with or without the mark "adapted", maker and model being zero.

#![tactic(auto)]

ghost use Rattle.std.specs.Prelude.{◌≡◌, Bool};
ghost use Rattle.buffer.specs.Checked.{is};
ghost use Rattle.encoding_plan.specs.EncodingPlan.{plain_encoding};
ghost use Rattle.encoding_plan.specs.PlanOf.{gray_white};
ghost use Rattle.encoding_plan.specs.FixedFloats.{white_floats, counted_color_plan};
ghost use Rattle.encoding_plan.specs.Answers.{described};
ghost use Rattle.numbers.specs.Rounded.{counted};
ghost use Rattle.refusals.specs.Refusals.{checked};

use color_encoding::{
    JxlColorEncoding, JxlPrimaries, JxlTransferFunction, JxlWhitePoint, RenderingIntent, WhiteXy,
};
use numbers::Counted;
use profile::{Content, GrayWhite, Numbers};
use refusals::Refusal;

// An encoding: the color encoding, the device's manufacturer and model for the header of its profile, four bytes each, the first the most
// significant, and the mark: whether the white of gray is adapted to D50. Of RGB and XYB, whose white always is, the mark says nothing.
#[derive(Clone, Copy, Debug)]
pub struct Encoding {
    pub color: JxlColorEncoding,
    pub maker: u32,
    pub model: u32,
    pub adapted: bool,
}

// An encoding with maker and model zero and without the mark, as job entries and typed texts mean it.
impl From<JxlColorEncoding> for Encoding {
    ghost from_gives = { λ color e. e ≡ plain_encoding color };

    fn from(color: JxlColorEncoding) -> Encoding {
        Encoding {
            color,
            maker: 0,
            model: 0,
            adapted: false,
        }
    }
}

// How many of the three numbers of the white of the PCS are rounded, which is `wtpt` of RGB, XYB and adapted gray, and how many of the other numbers of
// XYB.
const D50_ROUNDED: u32 = 2;

const XYB_ROUNDED: u32 = 28;

// The white of a gray plan, and how many of its fixed numbers were rounded.
fn white_numbers(white: WhiteXy, adapted: bool) -> Result<Counted<GrayWhite>, Refusal>
    ensures { checked result ≡ counted (white_floats adapted white) (gray_white adapted white) }
{
    if adapted {
        let chad = encoding_numbers::chad_numbers(white)?;
        let values = chad.value;
        return Ok(Counted {
            value: GrayWhite::Adapted(values),
            rounded: D50_ROUNDED + chad.rounded,
        });
    }
    let numbers = encoding_numbers::gray_numbers(white)?;
    let (x, z) = numbers.value;
    Ok(Counted {
        value: GrayWhite::Unadapted { x, z },
        rounded: numbers.rounded,
    })
}

fn gray_plan(
    white: JxlWhitePoint,
    transfer: JxlTransferFunction,
    intent: RenderingIntent,
    adapted: bool,
) -> Result<Counted<Numbers>, Refusal>
    ensures { described (JxlColorEncoding.GrayscaleColorSpace white transfer intent) (checked result) ≡ counted_color_plan adapted (JxlColorEncoding.GrayscaleColorSpace white transfer intent) }
{
    let named_or_gamma = encoding_curve::supported(transfer)?;
    let numbers = white_numbers(white.to_xy_coords(), adapted)?;
    let curve = encoding_curve::curve_of(named_or_gamma)?;
    let content = Content::Gray {
        curve: curve.value,
        white: numbers.value,
    };
    Ok(Counted {
        value: Numbers::plain(intent.number(), content),
        rounded: numbers.rounded + curve.rounded,
    })
}

fn rgb_plan(
    white: JxlWhitePoint,
    primaries: JxlPrimaries,
    transfer: JxlTransferFunction,
    intent: RenderingIntent,
) -> Result<Counted<Numbers>, Refusal>
    ensures { (adapted : Bool) → described (JxlColorEncoding.RgbColorSpace white primaries transfer intent) (checked result) ≡ counted_color_plan adapted (JxlColorEncoding.RgbColorSpace white primaries transfer intent) }
{
    let named_or_gamma = encoding_curve::supported(transfer)?;
    let white_xy = white.to_xy_coords();
    let chad = encoding_numbers::chad_numbers(white_xy)?;
    let columns = encoding_numbers::column_numbers(primaries.to_xy_coords(), white_xy)?;
    let curve = encoding_curve::curve_of(named_or_gamma)?;
    let chad_numbers = chad.value;
    let column_numbers = columns.value;
    let content = Content::Rgb {
        curve: curve.value,
        cicp: encoding_curve::cicp_of(white, primaries, curve.value),
        chad: chad_numbers,
        columns: column_numbers,
    };
    Ok(Counted {
        value: Numbers::plain(intent.number(), content),
        rounded: D50_ROUNDED + chad.rounded + columns.rounded + curve.rounded,
    })
}

// XYB has a plan of each intent, and is never refused.
fn xyb_plan(intent: RenderingIntent) -> Counted<Numbers>
    ensures { (adapted : Bool) → described (JxlColorEncoding.XYB intent) (is result) ≡ counted_color_plan adapted (JxlColorEncoding.XYB intent) }
{
    let number = intent.number();
    Counted {
        value: Numbers::plain(number, Content::Xyb),
        rounded: D50_ROUNDED + XYB_ROUNDED,
    }
}

// Maker and model are zero. The plan's text is the encoding's description.
pub fn plan_of(encoding: JxlColorEncoding, adapted: bool) -> Result<Counted<Numbers>, Refusal>
    ensures { described encoding (checked result) ≡ counted_color_plan adapted encoding }
{
    match encoding {
        JxlColorEncoding::RgbColorSpace {
            white_point,
            primaries,
            transfer_function,
            rendering_intent,
        } => rgb_plan(white_point, primaries, transfer_function, rendering_intent),
        JxlColorEncoding::GrayscaleColorSpace {
            white_point,
            transfer_function,
            rendering_intent,
        } => gray_plan(white_point, transfer_function, rendering_intent, adapted),
        JxlColorEncoding::XYB { rendering_intent } => Ok(xyb_plan(rendering_intent)),
    }
}
