// The names of the parts of an encoding in its description: the `Display` impls of the white point, the primaries and the transfer
// function of api/color.rs. A named variant has three letters, and one with numbers of its own is written by them.

#![tactic(auto)]

ghost use Rattle.std.specs.Prelude.{◌∷◌, [], ◌++◌, ◌+◌, ◌≤◌, length};
ghost use Rattle.decimal.specs.Seven.{seven_decimals};
ghost use Rattle.encoding_names.specs.Held.{Held, HeldWhite, HeldPrimaries, HeldTransfer, PutsPart};
ghost use Rattle.encoding_names.specs.Names.{chromaticities, comma, semicolon, pair, white_name, primaries_name, transfer_name};

use buffer::{put_byte, put_bytes};
use color_encoding::{JxlPrimaries, JxlTransferFunction, JxlWhitePoint, PrimariesXy};
use decimal::put_seven_decimals;

// Two numbers with a separator between them.
fn put_pair(out: &mut [u8], at: usize, x: f32, separator: u8, y: f32) -> usize
    requires { at + 97 ≤ length out.old }
    ensures { PutsPart 97 (Held x × Held y) out.old at (pair (separator ∷ []) x y) result out.new }
{
    let i = put_seven_decimals(&mut *out, at, x);
    let j = put_byte(&mut *out, i, separator);
    put_seven_decimals(&mut *out, j, y)
}

#[tactic(auto, unfolding(crate::specs::Names::white_name))]
pub fn put_white(out: &mut [u8], at: usize, white: JxlWhitePoint) -> usize
    requires { at + 97 ≤ length out.old }
    ensures { PutsPart 97 (HeldWhite white) out.old at (white_name white) result out.new }
{
    match white {
        JxlWhitePoint::D65 => put_bytes(out, at, b"D65"),
        JxlWhitePoint::E => put_bytes(out, at, b"EER"),
        JxlWhitePoint::DCI => put_bytes(out, at, b"DCI"),
        JxlWhitePoint::Chromaticity { wx, wy } => put_pair(out, at, wx, b';', wy),
    }
}

// A semicolon, and the coordinates of a further primary.
fn put_next_pair(out: &mut [u8], at: usize, x: f32, y: f32) -> usize
    requires { at + 98 ≤ length out.old }
    ensures { PutsPart 98 (Held x × Held y) out.old at (semicolon ++ pair comma x y) result out.new }
{
    let i = put_byte(&mut *out, at, b';');
    put_pair(&mut *out, i, x, b',', y)
}

fn put_chromaticities(out: &mut [u8], at: usize, xy: PrimariesXy) -> usize
    requires { at + 293 ≤ length out.old }
    ensures { PutsPart 293 (HeldPrimaries (chromaticities xy)) out.old at (primaries_name (chromaticities xy)) result out.new }
{
    let red = put_pair(&mut *out, at, xy.rx, b',', xy.ry);
    let green = put_next_pair(&mut *out, red, xy.gx, xy.gy);
    put_next_pair(&mut *out, green, xy.bx, xy.by)
}

#[tactic(auto, unfolding(crate::specs::Names::primaries_name))]
pub fn put_primaries(out: &mut [u8], at: usize, primaries: JxlPrimaries) -> usize
    requires { at + 293 ≤ length out.old }
    ensures { PutsPart 293 (HeldPrimaries primaries) out.old at (primaries_name primaries) result out.new }
{
    match primaries {
        JxlPrimaries::SRGB => put_bytes(out, at, b"SRG"),
        JxlPrimaries::BT2100 => put_bytes(out, at, b"202"),
        JxlPrimaries::P3 => put_bytes(out, at, b"DCI"),
        JxlPrimaries::Chromaticities { .. } => put_chromaticities(
            out,
            at,
            primaries.to_xy_coords(),
        ),
    }
}

fn put_gamma(out: &mut [u8], at: usize, g: f32) -> usize
    requires { at + 49 ≤ length out.old }
    ensures { PutsPart 49 (Held g) out.old at (103 ∷ seven_decimals g) result out.new }
{
    let i = put_byte(&mut *out, at, b'g');
    put_seven_decimals(&mut *out, i, g)
}

#[tactic(auto, unfolding(crate::specs::Names::transfer_name))]
pub fn put_transfer(out: &mut [u8], at: usize, transfer: JxlTransferFunction) -> usize
    requires { at + 49 ≤ length out.old }
    ensures { PutsPart 49 (HeldTransfer transfer) out.old at (transfer_name transfer) result out.new }
{
    match transfer {
        JxlTransferFunction::BT709 => put_bytes(out, at, b"709"),
        JxlTransferFunction::Linear => put_bytes(out, at, b"Lin"),
        JxlTransferFunction::SRGB => put_bytes(out, at, b"SRG"),
        JxlTransferFunction::PQ => put_bytes(out, at, b"PeQ"),
        JxlTransferFunction::DCI => put_bytes(out, at, b"DCI"),
        JxlTransferFunction::HLG => put_bytes(out, at, b"HLG"),
        JxlTransferFunction::Gamma(g) => put_gamma(out, at, g),
    }
}
