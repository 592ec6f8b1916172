// The length of an encoding's description, worked out without its letters. A profile's length follows from it.

#![tactic(auto)]

ghost use Rattle.std.specs.Prelude.{◌≡◌, ◌+◌, ◌≤◌, length};
ghost use Rattle.decimal.specs.Seven.{seven_decimals};
ghost use Rattle.text.specs.Description.{comma, pair, white_name, primaries_name, transfer_name, description};
ghost use Rattle.description_length.specs.Lengths.{LengthOf};

use color_encoding::{JxlColorEncoding, JxlPrimaries, JxlTransferFunction, JxlWhitePoint};
use common_names::common_name;

// The letters of a part that has a name, of "RGB_", "Gra_" and "XYB_", of an intent and of a separator.
const NAME: usize = 3;

const SPACE: usize = 4;

const INTENT: usize = 3;

const SEPARATOR: usize = 1;

// One digit, a point and seven decimals.
const UNIT_NUMBER: usize = 9;

// A number above 0 and up to 1, as coordinates and gammas are, needs no text. Of any other the text tells.
fn number_length(x: f32) -> usize
    ensures { LengthOf 48 (seven_decimals x) result }
{
    if 0.0 < x && x <= 1.0 {
        return UNIT_NUMBER;
    }
    decimal::seven_decimals(x).len
}

// Two numbers with a separator between them, a comma or another.
#[tactic(auto, unfolding(text::specs::Description::pair))]
fn pair_length(x: f32, y: f32) -> usize
    ensures { LengthOf 97 (pair comma x y) result }
{
    number_length(x) + SEPARATOR + number_length(y)
}

#[tactic(auto, unfolding(text::specs::Description::white_name))]
fn white_length(white: JxlWhitePoint) -> usize
    ensures { LengthOf 97 (white_name white) result }
{
    match white {
        JxlWhitePoint::Chromaticity { wx, wy } => pair_length(wx, wy),
        _ => NAME,
    }
}

#[tactic(auto, unfolding(text::specs::Description::primaries_name))]
fn primaries_length(primaries: JxlPrimaries) -> usize
    ensures { LengthOf 293 (primaries_name primaries) result }
{
    match primaries {
        JxlPrimaries::Chromaticities {
            rx,
            ry,
            gx,
            gy,
            bx,
            by,
        } => {
            pair_length(rx, ry) + SEPARATOR + pair_length(gx, gy) + SEPARATOR + pair_length(bx, by)
        }
        _ => NAME,
    }
}

// A gamma has a `g` before its number.
#[tactic(auto, unfolding(text::specs::Description::transfer_name))]
fn transfer_length(transfer: JxlTransferFunction) -> usize
    ensures { LengthOf 49 (transfer_name transfer) result }
{
    match transfer {
        JxlTransferFunction::Gamma(g) => 1 + number_length(g),
        _ => NAME,
    }
}

// The end of a description: the intent and the transfer function.
fn end_length(transfer: JxlTransferFunction) -> usize
    ensures { (result ≡ 5 + length (transfer_name transfer)) × (result ≤ 54) }
{
    SEPARATOR + INTENT + SEPARATOR + transfer_length(transfer)
}

#[tactic(auto, unfolding(text::specs::Description::rgb_text, text::specs::Description::gray_text, text::specs::Description::xyb_text, text::specs::Description::rgb_description, text::specs::Description::description))]
pub fn description_length(encoding: JxlColorEncoding) -> usize
    ensures { result ≡ length (description encoding) }
{
    if let Some(name) = common_name(encoding) {
        return name.len();
    }
    match encoding {
        JxlColorEncoding::RgbColorSpace {
            white_point,
            primaries,
            transfer_function,
            ..
        } => {
            let white = SPACE + white_length(white_point);
            white + SEPARATOR + primaries_length(primaries) + end_length(transfer_function)
        }
        JxlColorEncoding::GrayscaleColorSpace {
            white_point,
            transfer_function,
            ..
        } => SPACE + white_length(white_point) + end_length(transfer_function),
        JxlColorEncoding::XYB { .. } => SPACE + INTENT,
    }
}
