// An entry of the job of 01: the encoding that its bytes mean.

#![tactic(auto)]

ghost use Rattle.std.specs.Prelude.{◌≡◌, ◌≤◌};
ghost use Rattle.refusals.specs.Refusals.{checked};
ghost use Rattle.job_entry.specs.Entry.{byte_at, float_at, white_at, primaries_at, curve_at, intent_at, gray_encoding, rgb_encoding, xyb_encoding};

use color_encoding::{
    JxlColorEncoding, JxlPrimaries, JxlTransferFunction, JxlWhitePoint, PrimariesXy,
    RenderingIntent, WhiteXy,
};
use refusals::Refusal;

// ---- the fields of an entry; a byte past its end counts 0

fn number_at(entry: &[u8], at: usize) -> u32
    ensures { result ≡ byte_at entry.now at }
{
    u32::from(buffer::byte_at(entry, at))
}

fn float_at(entry: &[u8], at: usize) -> f32
    ensures { result ≡ float_at entry.now at }
{
    numbers::f32_from_bits(words::read_u32_be(entry, at))
}

fn white_at(entry: &[u8], at: usize) -> Result<JxlWhitePoint, Refusal>
    requires { at ≤ 40 }
    ensures { checked result ≡ white_at entry.now at }
{
    JxlWhitePoint::from_number(
        number_at(entry, at),
        WhiteXy {
            wx: float_at(entry, at + 1),
            wy: float_at(entry, at + 5),
        },
    )
}

fn primaries_at(entry: &[u8], at: usize) -> Result<JxlPrimaries, Refusal>
    requires { at ≤ 40 }
    ensures { checked result ≡ primaries_at entry.now at }
{
    JxlPrimaries::from_number(
        number_at(entry, at),
        PrimariesXy {
            rx: float_at(entry, at + 1),
            ry: float_at(entry, at + 5),
            gx: float_at(entry, at + 9),
            gy: float_at(entry, at + 13),
            bx: float_at(entry, at + 17),
            by: float_at(entry, at + 21),
        },
    )
}

fn curve_at(entry: &[u8], at: usize) -> Result<JxlTransferFunction, Refusal>
    requires { at ≤ 40 }
    ensures { checked result ≡ curve_at entry.now at }
{
    JxlTransferFunction::from_number(number_at(entry, at), float_at(entry, at + 1))
}

fn intent_at(entry: &[u8], at: usize) -> Result<RenderingIntent, Refusal>
    ensures { checked result ≡ intent_at entry.now at }
{
    RenderingIntent::try_from(number_at(entry, at))
}

// ---- the encoding that an entry's bytes mean

pub fn gray_encoding(entry: &[u8]) -> Result<JxlColorEncoding, Refusal>
    ensures { checked result ≡ gray_encoding entry.now }
{
    encoding_codes::gray_from_codes(white_at(entry, 0), curve_at(entry, 9), intent_at(entry, 14))
}

pub fn rgb_encoding(entry: &[u8]) -> Result<JxlColorEncoding, Refusal>
    ensures { checked result ≡ rgb_encoding entry.now }
{
    encoding_codes::rgb_from_codes(
        white_at(entry, 0),
        primaries_at(entry, 9),
        curve_at(entry, 34),
        intent_at(entry, 39),
    )
}

#[tactic(auto, unfolding(crate::specs::Entry::xyb_encoding))]
pub fn xyb_encoding(entry: &[u8]) -> Result<JxlColorEncoding, Refusal>
    ensures { checked result ≡ xyb_encoding entry.now }
{
    encoding_codes::xyb_from_code(intent_at(entry, 0))
}
