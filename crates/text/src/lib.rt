// The text that describes an encoding, `get_color_encoding_description` of api/color.rs: written from the front of a lent slice on.

#![tactic(auto)]

ghost use Rattle.std.specs.Prelude.{◌≡◌, ◌++◌, ◌+◌, ◌≤◌, length};
ghost use Rattle.color_encoding.specs.Intent.{intent_name};
ghost use Rattle.buffer.specs.Puts.{Puts};
ghost use Rattle.encoding_names.specs.Held.{HeldWhite, HeldTransfer, PutsPart};
ghost use Rattle.encoding_names.specs.Names.{white_name, transfer_name};
ghost use Rattle.text.specs.Held.{InRange, WhiteInRange};
ghost use Rattle.text.specs.Description.{underscore, rgb_text, gray_text, xyb_text, rgb_description, description, max_bytes};
ghost use Rattle.text.specs.Written.{PutsDescription, Describes};

use buffer::{Text, put_byte, put_bytes};
use color_encoding::{
    JxlColorEncoding, JxlPrimaries, JxlTransferFunction, JxlWhitePoint, RenderingIntent,
};
use common_names::common_name;
use encoding_names::{put_primaries, put_transfer, put_white};

// The most bytes of a description.
pub const MAX_BYTES: usize = 449;

fn put_intent(out: &mut [u8], at: usize, intent: RenderingIntent) -> usize
    requires { at + 3 ≤ length out.old }
    ensures { Puts out.old at 3 (intent_name intent) result out.new }
{
    let name = intent.short_name();
    put_bytes(out, at, &name)
}

// The name of a color space, and the white point.
fn put_space(out: &mut [u8], space: &[u8; 4], white: JxlWhitePoint) -> usize
    requires { max_bytes ≤ length out.old }
    ensures { PutsPart 101 (HeldWhite white) out.old 0 (space.now ++ white_name white) result out.new }
{
    let i = put_bytes(out, 0, space);
    put_white(out, i, white)
}

// The end of a description: the intent and the transfer function.
fn put_end(
    out: &mut [u8],
    at: usize,
    intent: RenderingIntent,
    transfer: JxlTransferFunction,
) -> usize
    requires { at + 54 ≤ length out.old }
    ensures { PutsPart 54 (HeldTransfer transfer) out.old at (underscore ++ intent_name intent ++ underscore ++ transfer_name transfer) result out.new }
{
    let intent_at = put_byte(out, at, b'_');
    let intent_end = put_intent(out, intent_at, intent);
    let transfer_at = put_byte(out, intent_end, b'_');
    put_transfer(out, transfer_at, transfer)
}

// The description of an encoding, put to the front of a slice that has room for any; answers its length.
pub fn put_description(out: &mut [u8], encoding: JxlColorEncoding) -> usize
    requires { max_bytes ≤ length out.old }
    ensures { PutsDescription (WhiteInRange encoding) (description encoding) out.old result out.new }
{
    if let Some(name) = common_name(encoding) {
        return put_bytes(out, 0, name.as_bytes());
    }
    match encoding {
        JxlColorEncoding::RgbColorSpace {
            white_point,
            primaries,
            transfer_function,
            rendering_intent,
        } => {
            let white_end = put_space(out, b"RGB_", white_point);
            let primaries_at = put_byte(out, white_end, b'_');
            let primaries_end = put_primaries(out, primaries_at, primaries);
            put_end(out, primaries_end, rendering_intent, transfer_function)
        }
        JxlColorEncoding::GrayscaleColorSpace {
            white_point,
            transfer_function,
            rendering_intent,
        } => {
            let white_end = put_space(out, b"Gra_", white_point);
            put_end(out, white_end, rendering_intent, transfer_function)
        }
        JxlColorEncoding::XYB { rendering_intent } => {
            let intent_at = put_bytes(out, 0, b"XYB_");
            put_intent(out, intent_at, rendering_intent)
        }
    }
}

pub fn get_color_encoding_description(encoding: JxlColorEncoding) -> Text<MAX_BYTES>
    ensures { Describes encoding result }
{
    let mut bytes = [0u8; MAX_BYTES];
    let len = put_description(&mut bytes, encoding);
    Text { bytes, len }
}
