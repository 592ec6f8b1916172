// The parts of an encoding read from a text, by the names that `encoding_names` gives them: three letters, or numbers. Each function answers what it
// found and the place after it.

#![tactic(auto)]

ghost use Rattle.std.specs.Prelude.{◌≡◌, drop};
ghost use Rattle.buffer.specs.Ascii.{ascii};
ghost use Rattle.encoding_names.specs.Names.{semicolon};
ghost use Rattle.scanner.specs.Scan.{mapped, after};
ghost use Rattle.scanner.specs.Places.{found_at};
ghost use Rattle.decimal_parser.specs.ParseFloat.{float};
ghost use Rattle.names_parser.specs.ParseNames.{intent, pair, own_white, white, three_pairs, own_primaries, primaries, transfer};

use color_encoding::{JxlPrimaries, JxlTransferFunction, JxlWhitePoint, RenderingIntent};
use decimal_parser::float_at;
use scanner::{past, value_at};

// ---- the names

const INTENTS: [(&str, RenderingIntent); 4] = [
    ("Per", RenderingIntent::Perceptual),
    ("Rel", RenderingIntent::Relative),
    ("Sat", RenderingIntent::Saturation),
    ("Abs", RenderingIntent::Absolute),
];

const WHITES: [(&str, JxlWhitePoint); 3] = [
    ("D65", JxlWhitePoint::D65),
    ("EER", JxlWhitePoint::E),
    ("DCI", JxlWhitePoint::DCI),
];

const PRIMARIES: [(&str, JxlPrimaries); 3] = [
    ("SRG", JxlPrimaries::SRGB),
    ("202", JxlPrimaries::BT2100),
    ("DCI", JxlPrimaries::P3),
];

const TRANSFERS: [(&str, JxlTransferFunction); 6] = [
    ("709", JxlTransferFunction::BT709),
    ("Lin", JxlTransferFunction::Linear),
    ("SRG", JxlTransferFunction::SRGB),
    ("PeQ", JxlTransferFunction::PQ),
    ("DCI", JxlTransferFunction::DCI),
    ("HLG", JxlTransferFunction::HLG),
];

// ---- the intent

#[tactic(auto, unfolding(crate::specs::ParseNames::intent))]
pub fn intent_at(text: &[u8], at: usize) -> Option<(RenderingIntent, usize)>
    ensures { found_at text.now result ≡ intent (drop at text.now) }
{
    value_at(text, at, &INTENTS)
}

// ---- the white point

// Two numbers with a separator between them.
#[tactic(auto, unfolding(crate::specs::ParseNames::pair))]
fn pair_at(text: &[u8], at: usize, separator: &[u8]) -> Option<((f32, f32), usize)>
    ensures { found_at text.now result ≡ pair separator.now (drop at text.now) }
{
    let (x, next) = float_at(text, at)?;
    let next = past(text, next, separator)?;
    let (y, next) = float_at(text, next)?;
    Some(((x, y), next))
}

fn own_white_at(text: &[u8], at: usize) -> Option<(JxlWhitePoint, usize)>
    ensures { found_at text.now result ≡ mapped own_white (pair semicolon (drop at text.now)) }
{
    let ((wx, wy), next) = pair_at(text, at, b";")?;
    Some((JxlWhitePoint::Chromaticity { wx, wy }, next))
}

#[tactic(auto, unfolding(crate::specs::ParseNames::white))]
pub fn white_at(text: &[u8], at: usize) -> Option<(JxlWhitePoint, usize)>
    ensures { found_at text.now result ≡ white (drop at text.now) }
{
    value_at(text, at, &WHITES).or_else(|| own_white_at(text, at))
}

// ---- the primaries

#[tactic(auto, unfolding(crate::specs::ParseNames::three_pairs))]
fn own_primaries_at(text: &[u8], at: usize) -> Option<(JxlPrimaries, usize)>
    ensures { found_at text.now result ≡ mapped own_primaries (three_pairs (drop at text.now)) }
{
    let ((rx, ry), next) = pair_at(text, at, b",")?;
    let next = past(text, next, b";")?;
    let ((gx, gy), next) = pair_at(text, next, b",")?;
    let next = past(text, next, b";")?;
    let ((bx, by), next) = pair_at(text, next, b",")?;
    Some((
        JxlPrimaries::Chromaticities {
            rx,
            ry,
            gx,
            gy,
            bx,
            by,
        },
        next,
    ))
}

#[tactic(auto, unfolding(crate::specs::ParseNames::primaries))]
pub fn primaries_at(text: &[u8], at: usize) -> Option<(JxlPrimaries, usize)>
    ensures { found_at text.now result ≡ primaries (drop at text.now) }
{
    value_at(text, at, &PRIMARIES).or_else(|| own_primaries_at(text, at))
}

// ---- the transfer function

fn gamma_at(text: &[u8], at: usize) -> Option<(JxlTransferFunction, usize)>
    ensures { found_at text.now result ≡ mapped JxlTransferFunction.Gamma (after (ascii "g") float (drop at text.now)) }
{
    let next = past(text, at, b"g")?;
    let (g, next) = float_at(text, next)?;
    Some((JxlTransferFunction::Gamma(g), next))
}

#[tactic(auto, unfolding(crate::specs::ParseNames::transfer))]
pub fn transfer_at(text: &[u8], at: usize) -> Option<(JxlTransferFunction, usize)>
    ensures { found_at text.now result ≡ transfer (drop at text.now) }
{
    value_at(text, at, &TRANSFERS).or_else(|| gamma_at(text, at))
}
