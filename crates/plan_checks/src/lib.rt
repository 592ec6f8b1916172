// The checks of a plan that look at no file: which intents, shapes, numbers, letters and `cicp` values a plan has.

#![tactic(auto)]

ghost use Rattle.std.specs.Prelude.{◌≡◌, true};
ghost use Rattle.profile.specs.Shape.{GoodShape};
ghost use Rattle.reader_spec.specs.Decide as Decide;
ghost use Rattle.reader_spec.specs.Tests as Tests;

use numbers::LARGEST;
use profile::{Content, Curve, GrayWhite, MAX_LETTERS, Numbers, Shape};

// Whether plans have this intent.
pub fn intent_is_good(intent: u32) -> bool
    ensures { result ≡ Decide.decided (Decide.intent intent) }
{
    intent <= 3
}

// Whether some plan has this shape.
pub fn shape_is_good(shape: Shape) -> bool
    ensures { (result ≡ true → GoodShape shape) × (GoodShape shape → result ≡ true) }
{
    (1..=MAX_LETTERS).contains(&shape.letters) && !(shape.cicp && shape.gamma)
}

// ---- the range of the numbers

// Whether a number of a plan lies within its range.
fn in_range(z: i32) -> bool
    ensures { result ≡ Tests.in_range z }
{
    z.unsigned_abs() <= LARGEST.unsigned_abs()
}

fn all_in_range(numbers: &[i32]) -> bool
    ensures { result ≡ Tests.all_in_range numbers.now }
{
    numbers.iter().all(|z| in_range(*z))
}

fn curve_in_range(curve: Curve) -> bool
    ensures { result ≡ Tests.curve_in_range curve }
{
    match curve {
        Curve::Named(_) => true,
        Curve::Gamma(g) => in_range(g),
    }
}

fn white_in_range(white: GrayWhite) -> bool
    ensures { result ≡ Tests.white_in_range white }
{
    match white {
        GrayWhite::Unadapted { x, z } => in_range(x) && in_range(z),
        GrayWhite::Adapted(chad) => all_in_range(&chad),
    }
}

// Whether every number of a plan lies within its range.
#[tactic(auto, unfolding(reader_spec::specs::Tests::numbers_in_range))]
pub fn numbers_in_range(plan: Numbers) -> bool
    ensures { result ≡ Tests.numbers_in_range plan }
{
    match plan.content {
        Content::Gray { curve, white } => curve_in_range(curve) && white_in_range(white),
        Content::Rgb {
            curve,
            chad,
            columns,
            ..
        } => curve_in_range(curve) && all_in_range(&chad) && all_in_range(&columns),
        Content::Xyb => true,
    }
}

// ---- the letters and the `cicp` value

// Whether a primaries value of `cicp`, if there is one, is one that a plan has.
fn cicp_good(cicp: Option<u8>) -> bool
    ensures { result ≡ Tests.cicp_good cicp }
{
    matches!(cicp, None | Some(1 | 9 | 11 | 12))
}

// Whether the letters and the `cicp` value are those of a plan.
#[tactic(auto, unfolding(reader_spec::specs::Tests::letters_and_cicp_good))]
pub fn letters_and_cicp_good(plan: Numbers, text: &[u8]) -> bool
    ensures { result ≡ Tests.letters_and_cicp_good plan text.now }
{
    buffer::is_ascii(text)
        && match plan.content {
            Content::Rgb { cicp, .. } => cicp_good(cicp),
            _ => true,
        }
}
