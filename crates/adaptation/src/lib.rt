// The chromatic adaptation of a white point to D50: api/color.rs from K_BRADFORD to `adapt_to_xyz_d50`, and the matrix of `chad`. All is f64,
// from the widened coordinates on, until the matrix is narrowed.

#![tactic(auto)]

ghost use Rattle.std.specs.Prelude.{◌≡◌};
ghost use Rattle.floats.specs.Binary64.{◌⊘◌};
ghost use Rattle.refusals.specs.Refusals.{checked};
ghost use Rattle.linalg.specs.Linalg.{three, component};
ghost use Rattle.adaptation.specs.Adapt.{d50, diagonal, has_zero, all_finite, lms, adaptation_matrix, adapt_to_xyz_d50, chad_matrix};

use color_encoding::WhiteXy;
use linalg::{Matrix3x3, Vector3};
use refusals::Refusal;
use white_point::{finite_xyz, in_range, white_xyz};

// Bradford matrices for chromatic adaptation.
const K_BRADFORD: Matrix3x3 = [
    [0.8951, 0.2664, -0.1614],
    [-0.7502, 1.7135, 0.0367],
    [0.0389, -0.0685, 1.0296],
];

const K_BRADFORD_INV: Matrix3x3 = [
    [0.9869929, -0.1470543, 0.1599627],
    [0.4323053, 0.5183603, 0.0492912],
    [-0.0085287, 0.0400428, 0.9684867],
];

#[tactic(auto, unfolding(crate::specs::Adapt::has_zero))]
fn has_zero(v: Vector3) -> bool
    ensures { result ≡ has_zero v }
{
    v.contains(&0.0)
}

pub fn diagonal(v: Vector3) -> Matrix3x3
    ensures { result ≡ diagonal v }
{
    [[v[0], 0.0, 0.0], [0.0, v[1], 0.0], [0.0, 0.0, v[2]]]
}

// The cone responses of an XYZ.
#[tactic(auto, unfolding(crate::specs::Adapt::lms))]
fn lms(xyz: Vector3) -> Vector3
    ensures { result ≡ lms xyz }
{
    linalg::mul_3x3_vector(K_BRADFORD, xyz)
}

// To cone responses, each by its gain, and back.
#[tactic(auto, unfolding(crate::specs::Adapt::adaptation_matrix))]
fn adaptation_matrix(gains: Vector3) -> Matrix3x3
    ensures { result ≡ adaptation_matrix gains }
{
    let b_matrix = linalg::mul_3x3_matrix(diagonal(gains), K_BRADFORD);
    linalg::mul_3x3_matrix(K_BRADFORD_INV, b_matrix)
}

// What each cone response is multiplied by: that of D50 divided by that of the white.
fn gains(source: Vector3) -> Vector3
    ensures { result ≡ three (λ i. component (lms d50) i ⊘ component source i) }
{
    let w50 = [0.96422, 1.0, 0.82521];
    let lms_d50 = lms(w50);
    [
        lms_d50[0] / source[0],
        lms_d50[1] / source[1],
        lms_d50[2] / source[2],
    ]
}

#[tactic(auto, unfolding(crate::specs::Adapt::all_finite))]
fn all_finite(v: Vector3) -> bool
    ensures { result ≡ all_finite v }
{
    v.iter().all(|x| x.is_finite())
}

// The matrix that adapts XYZ from a white to D50.
#[tactic(auto, unfolding(crate::specs::Adapt::adapt_to_xyz_d50, crate::specs::Adapt::adaptable, crate::specs::Adapt::gains))]
pub fn adapt_to_xyz_d50(white: WhiteXy) -> Result<Matrix3x3, Refusal>
    ensures { checked result ≡ adapt_to_xyz_d50 white }
{
    let w = white_xyz(white);
    let lms_source = lms(w);
    let gains = gains(lms_source);
    if in_range(white) && finite_xyz(w) && !has_zero(lms_source) && all_finite(gains) {
        Ok(adaptation_matrix(gains))
    } else {
        Err(Refusal::InvalidWhitePoint)
    }
}

// The adaptation to D50, each entry rounded once to f32.
#[tactic(auto, unfolding(crate::specs::Adapt::chad_matrix))]
pub fn chad_matrix(white: WhiteXy) -> Result<[[f32; 3]; 3], Refusal>
    ensures { checked result ≡ chad_matrix white }
{
    adapt_to_xyz_d50(white).map(icc_matrix::narrowed)
}
