// From the CIE xy coordinates of a white point and of three primaries to the columns of a profile: `primaries_to_xyz`, `primaries_to_xyz_d50` and
// `create_icc_rgb_matrix` of api/color.rs. All is f64, from the widened coordinates on, until the matrix is narrowed.

#![tactic(auto)]

ghost use Rattle.std.specs.Prelude.{◌≡◌};
ghost use Rattle.refusals.specs.Refusals.{checked};
ghost use Rattle.colorimetry.specs.Primaries.{primaries_matrix, scaled_primaries, primaries_to_xyz, primaries_to_xyz_d50, create_icc_rgb_matrix};

use adaptation::{adapt_to_xyz_d50, diagonal};
use color_encoding::{PrimariesXy, WhiteXy};
use linalg::{Matrix3x3, Vector3};
use refusals::Refusal;
use white_point::{finite_xyz, in_range, white_xyz};

// The matrix whose columns are x, y and z = 1 - x - y of the primaries.
#[tactic(auto, unfolding(crate::specs::Primaries::primaries_matrix))]
fn primaries_matrix(primaries: PrimariesXy) -> Matrix3x3
    ensures { result ≡ primaries_matrix primaries }
{
    let rx = std::num::f32_to_f64_with_nan(primaries.rx);
    let ry = std::num::f32_to_f64_with_nan(primaries.ry);
    let gx = std::num::f32_to_f64_with_nan(primaries.gx);
    let gy = std::num::f32_to_f64_with_nan(primaries.gy);
    let bx = std::num::f32_to_f64_with_nan(primaries.bx);
    let by = std::num::f32_to_f64_with_nan(primaries.by);
    let rz = 1.0 - rx - ry;
    let gz = 1.0 - gx - gy;
    let bz = 1.0 - bx - by;
    [[rx, gx, bx], [ry, gy, by], [rz, gz, bz]]
}

// The primaries, each scaled so that they add up to the white.
#[tactic(auto, unfolding(crate::specs::Primaries::scaled_primaries))]
fn scaled_primaries(p: Matrix3x3, w: Vector3) -> Matrix3x3
    ensures { result ≡ scaled_primaries p w }
{
    let p_inv_matrix = matrix_inverse::inv_3x3_matrix(p);
    let s_vec = linalg::mul_3x3_vector(p_inv_matrix, w);
    linalg::mul_3x3_matrix(p, diagonal(s_vec))
}

// The matrix from RGB to XYZ relative to the white.
#[tactic(auto, unfolding(crate::specs::Primaries::primaries_to_xyz))]
pub fn primaries_to_xyz(primaries: PrimariesXy, white: WhiteXy) -> Result<Matrix3x3, Refusal>
    ensures { checked result ≡ primaries_to_xyz primaries white }
{
    let p_matrix = primaries_matrix(primaries);
    let w = white_xyz(white);
    if !in_range(white) {
        return Err(Refusal::InvalidWhitePoint);
    }
    if matrix_inverse::is_singular(p_matrix) {
        return Err(Refusal::MatrixInversionFailed);
    }
    if !finite_xyz(w) {
        return Err(Refusal::InvalidWhitePoint);
    }
    Ok(scaled_primaries(p_matrix, w))
}

// The matrix from RGB to XYZ relative to D50.
#[tactic(auto, unfolding(crate::specs::Primaries::primaries_to_xyz_d50))]
pub fn primaries_to_xyz_d50(primaries: PrimariesXy, white: WhiteXy) -> Result<Matrix3x3, Refusal>
    ensures { checked result ≡ primaries_to_xyz_d50 primaries white }
{
    let rgb_to_xyz = primaries_to_xyz(primaries, white)?;
    let adaptation_to_d50 = adapt_to_xyz_d50(white)?;
    Ok(linalg::mul_3x3_matrix(adaptation_to_d50, rgb_to_xyz))
}

// The matrix from RGB to XYZ relative to D50, each entry rounded once to f32.
#[tactic(auto, unfolding(crate::specs::Primaries::create_icc_rgb_matrix))]
pub fn create_icc_rgb_matrix(
    primaries: PrimariesXy,
    white: WhiteXy,
) -> Result<[[f32; 3]; 3], Refusal>
    ensures { checked result ≡ create_icc_rgb_matrix primaries white }
{
    primaries_to_xyz_d50(primaries, white).map(icc_matrix::narrowed)
}
