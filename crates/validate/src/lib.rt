// `validate_icc_matrix` of api/color.rs: whether the matrices of an encoding fit the fixed numbers of a profile.

#![tactic(auto)]

ghost use Rattle.std.specs.Prelude.{◌≡◌};
ghost use Rattle.refusals.specs.Refusals.{number, checked};
ghost use Rattle.validate.specs.Validate.{is_s15_fixed_16, all_s15_fixed_16, in_range_or, white_in_range, matrix_in_range, matrices_in_range, in_range, error_at, validate_icc_matrix};

use color_encoding::{JxlColorEncoding, PrimariesXy, WhiteXy};
use refusals::Refusal;

// The Rust's errors: one stands for every float that is out of range.
#[derive(Clone, Copy, Debug, PartialEq, Eq)]
pub enum ValidationError {
    InvalidWhitePointY,
    InvalidWhitePoint,
    MatrixInversionFailed,
    ValueOutOfRange,
}

impl From<Refusal> for ValidationError {
    ghost from_gives = { λ r e. e ≡ error_at (number r) };

    fn from(refusal: Refusal) -> ValidationError {
        match refusal {
            Refusal::InvalidWhitePointY => ValidationError::InvalidWhitePointY,
            Refusal::InvalidWhitePoint => ValidationError::InvalidWhitePoint,
            Refusal::MatrixInversionFailed => ValidationError::MatrixInversionFailed,
            _ => ValidationError::ValueOutOfRange,
        }
    }
}

// Within the range that a fixed number has.
fn is_s15_fixed_16(value: f32) -> bool
    ensures { result ≡ is_s15_fixed_16 value }
{
    (-32767.995..=32767.995).contains(&value)
}

fn all_s15_fixed_16(values: &[f32]) -> bool
    ensures { result ≡ all_s15_fixed_16 values.now }
{
    values.iter().all(|value| is_s15_fixed_16(*value))
}

// The refusal where one of the floats is out of range.
fn in_range_or(refusal: Refusal, values: &[f32]) -> Result<(), Refusal>
    ensures { checked result ≡ in_range_or (number refusal) values.now }
{
    if all_s15_fixed_16(values) {
        Ok(())
    } else {
        Err(refusal)
    }
}

// The XYZ of a gray white.
fn white_in_range(white: WhiteXy) -> Result<(), Refusal>
    ensures { checked result ≡ white_in_range white }
{
    let xyz = white_point::cie_xyz_from_white_cie_xy(white)?;
    in_range_or(Refusal::ValueOutOfRange, &xyz)
}

// The matrix from RGB to XYZ.
fn matrix_in_range(primaries: PrimariesXy, white: WhiteXy) -> Result<(), Refusal>
    ensures { checked result ≡ matrix_in_range primaries white }
{
    let m = colorimetry::create_icc_rgb_matrix(primaries, white)?;
    let values = icc_matrix::rows(m);
    in_range_or(Refusal::ValueOutOfRange, &values)
}

// The matrix of the adaptation, then that from RGB to XYZ.
fn matrices_in_range(primaries: PrimariesXy, white: WhiteXy) -> Result<(), Refusal>
    ensures { checked result ≡ matrices_in_range primaries white }
{
    let chad = adaptation::chad_matrix(white)?;
    let values = icc_matrix::rows(chad);
    in_range_or(Refusal::ChadOutOfRange, &values)?;
    matrix_in_range(primaries, white)
}

#[tactic(auto, unfolding(crate::specs::Validate::in_range))]
fn in_range(encoding: JxlColorEncoding) -> Result<(), Refusal>
    ensures { checked result ≡ in_range encoding }
{
    match encoding {
        JxlColorEncoding::GrayscaleColorSpace { white_point, .. } => {
            white_in_range(white_point.to_xy_coords())
        }
        JxlColorEncoding::RgbColorSpace {
            white_point,
            primaries,
            ..
        } => matrices_in_range(primaries.to_xy_coords(), white_point.to_xy_coords()),
        JxlColorEncoding::XYB { .. } => Ok(()),
    }
}

// Whether the matrices of an encoding fit the fixed numbers of a profile.
pub fn validate_icc_matrix(encoding: JxlColorEncoding) -> Result<(), ValidationError>
    ensures { result ≡ validate_icc_matrix encoding }
{
    in_range(encoding)?;
    Ok(())
}
