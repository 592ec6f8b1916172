// An encoding as the bytes of a lent record of C: the number of its section in a job, and then the bytes of an RGB entry, what the kind does not use
// zero. The callers of the put functions have checked that there is room; each function answers the place after what it put.

#![tactic(auto)]

ghost use Rattle.std.specs.Prelude.{◌+◌, ◌≤◌, ◌<◌, ◌∷◌, [], ◌++◌, length};
ghost use Rattle.buffer.specs.Puts.{Puts};
ghost use Rattle.color_encoding.specs.Intent.{intent_number};
ghost use Rattle.encoding_record.specs.EncodingRecord.{float_bytes, white_bytes, primaries_bytes, curve_bytes, encoding_size, encoding_record};

use buffer::{put_byte, put_zeros};
use color_encoding::{
    JxlColorEncoding, JxlPrimaries, JxlTransferFunction, JxlWhitePoint, RenderingIntent,
};

pub const ENCODING_SIZE: usize = 41;

// The number of a kind, curve or intent.
fn put_number(out: &mut [u8], at: usize, number: u32) -> usize
    requires { (at + 1 ≤ length out.old) × (number < 256) }
    ensures { Puts out.old at 1 (number ∷ []) result out.new }
{
    put_byte(out, at, number as u8)
}

fn put_float(out: &mut [u8], at: usize, x: f32) -> usize
    requires { at + 4 ≤ length out.old }
    ensures { Puts out.old at 4 (float_bytes x) result out.new }
{
    words::put_u32_be(out, at, numbers::f32_to_bits(x))
}

// The coordinates of a white point or a primary.
fn put_xy(out: &mut [u8], at: usize, x: f32, y: f32) -> usize
    requires { at + 8 ≤ length out.old }
    ensures { Puts out.old at 8 (float_bytes x ++ float_bytes y) result out.new }
{
    let next = put_float(out, at, x);
    put_float(out, next, y)
}

fn put_white(out: &mut [u8], at: usize, white: JxlWhitePoint) -> usize
    requires { at + 9 ≤ length out.old }
    ensures { Puts out.old at 9 (white_bytes white) result out.new }
{
    let next = put_number(out, at, white.number());
    match white {
        JxlWhitePoint::Chromaticity { wx, wy } => put_xy(out, next, wx, wy),
        _ => put_zeros(out, next, 8),
    }
}

fn put_primaries(out: &mut [u8], at: usize, primaries: JxlPrimaries) -> usize
    requires { at + 25 ≤ length out.old }
    ensures { Puts out.old at 25 (primaries_bytes primaries) result out.new }
{
    let red = put_number(out, at, primaries.number());
    match primaries {
        JxlPrimaries::Chromaticities {
            rx,
            ry,
            gx,
            gy,
            bx,
            by,
        } => {
            let green = put_xy(out, red, rx, ry);
            let blue = put_xy(out, green, gx, gy);
            put_xy(out, blue, bx, by)
        }
        _ => put_zeros(out, red, 24),
    }
}

fn put_curve(out: &mut [u8], at: usize, curve: JxlTransferFunction) -> usize
    requires { at + 5 ≤ length out.old }
    ensures { Puts out.old at 5 (curve_bytes curve) result out.new }
{
    let next = put_number(out, at, curve.number());
    match curve {
        JxlTransferFunction::Gamma(g) => put_float(out, next, g),
        _ => put_zeros(out, next, 4),
    }
}

fn put_intent(out: &mut [u8], at: usize, intent: RenderingIntent) -> usize
    requires { at + 1 ≤ length out.old }
    ensures { Puts out.old at 1 (intent_number intent ∷ []) result out.new }
{
    put_number(out, at, intent.number())
}

// The front of a record: the section and the white point.
fn put_front(out: &mut [u8], at: usize, section: u8, white: JxlWhitePoint) -> usize
    requires { at + 10 ≤ length out.old }
    ensures { Puts out.old at 10 (section ∷ white_bytes white) result out.new }
{
    let next = put_byte(out, at, section);
    put_white(out, next, white)
}

// The end of a record: the curve and the intent.
fn put_end(out: &mut [u8], at: usize, curve: JxlTransferFunction, intent: RenderingIntent) -> usize
    requires { at + 6 ≤ length out.old }
    ensures { Puts out.old at 6 (curve_bytes curve ++ (intent_number intent ∷ [])) result out.new }
{
    let next = put_curve(out, at, curve);
    put_intent(out, next, intent)
}

pub fn put_encoding_record(out: &mut [u8], at: usize, encoding: JxlColorEncoding) -> usize
    requires { at + encoding_size ≤ length out.old }
    ensures { Puts out.old at encoding_size (encoding_record encoding) result out.new }
{
    match encoding {
        JxlColorEncoding::RgbColorSpace {
            white_point,
            primaries,
            transfer_function,
            rendering_intent,
        } => {
            let primaries_at = put_front(out, at, 2, white_point);
            let curve_at = put_primaries(out, primaries_at, primaries);
            put_end(out, curve_at, transfer_function, rendering_intent)
        }
        JxlColorEncoding::GrayscaleColorSpace {
            white_point,
            transfer_function,
            rendering_intent,
        } => {
            let zeros_at = put_front(out, at, 1, white_point);
            let curve_at = put_zeros(out, zeros_at, 25);
            put_end(out, curve_at, transfer_function, rendering_intent)
        }
        JxlColorEncoding::XYB { rendering_intent } => {
            let zeros_at = put_byte(out, at, 3);
            let intent_at = put_zeros(out, zeros_at, 39);
            put_intent(out, intent_at, rendering_intent)
        }
    }
}
