// The XYZ of a white point from its CIE xy coordinates: of an RGB white in f64, as `adapt_to_xyz_d50` and `primaries_to_xyz` of api/color.rs
// begin, and of a gray white in f32, `cie_xyz_from_white_cie_xy`.

#![tactic(auto)]

ghost use Rattle.std.specs.Prelude.{◌≡◌};
ghost use Rattle.color_encoding.specs.Range.{in_range};
ghost use Rattle.refusals.specs.Refusals.{checked};
ghost use Rattle.white_point.specs.White.{white_z_of, white_xyz, finite_xyz};
ghost use Rattle.white_point.specs.GrayWhite.{gray_z, cie_xyz_from_white_cie_xy};

use color_encoding::WhiteXy;
use linalg::Vector3;
use refusals::Refusal;

// x lies in [0, 1] and y in (0, 1].
#[tactic(auto, using(floats::specs::ContainsLaws::partial_le_is), unfolding(color_encoding::specs::Range::in_range))]
pub fn in_range(white: WhiteXy) -> bool
    ensures { result ≡ in_range white }
{
    (0.0..=1.0).contains(&white.wx) && white.wy > 0.0 && white.wy <= 1.0
}

// z = 1 - x - y of an RGB white, in f64.
fn white_z(white: WhiteXy) -> f64
    ensures { result ≡ white_z_of white }
{
    let x = std::num::f32_to_f64_with_nan(white.wx);
    let y = std::num::f32_to_f64_with_nan(white.wy);
    1.0 - x - y
}

// XYZ with Y = 1.
#[tactic(auto, unfolding(crate::specs::White::white_xyz))]
pub fn white_xyz(white: WhiteXy) -> Vector3
    ensures { result ≡ white_xyz white }
{
    let wx = std::num::f32_to_f64_with_nan(white.wx);
    let wy = std::num::f32_to_f64_with_nan(white.wy);
    [wx / wy, 1.0, white_z(white) / wy]
}

// Only X and Z can overflow.
#[tactic(auto, unfolding(crate::specs::White::finite_xyz))]
pub fn finite_xyz(v: Vector3) -> bool
    ensures { result ≡ finite_xyz v }
{
    v[0].is_finite() && v[2].is_finite()
}

// z = 1 - x - y of a gray white, in f32.
fn gray_z(white: WhiteXy) -> f32
    ensures { result ≡ gray_z white }
{
    1.0 - white.wx - white.wy
}

// The XYZ of a gray profile's white, wholly in f32.
#[tactic(auto, unfolding(crate::specs::GrayWhite::cie_xyz_from_white_cie_xy))]
pub fn cie_xyz_from_white_cie_xy(white: WhiteXy) -> Result<[f32; 3], Refusal>
    ensures { checked result ≡ cie_xyz_from_white_cie_xy white }
{
    let wx = white.wx;
    let wy = white.wy;
    if floats::binary32::abs_below(wy, 1e-12) {
        return Err(Refusal::InvalidWhitePointY);
    }
    let factor = 1.0 / wy;
    Ok([wx * factor, 1.0, gray_z(white) * factor])
}
