// The inverse of a 3 by 3 matrix of f64 by its cofactors: util/linalg.rs.

#![tactic(auto)]

ghost use Rattle.std.specs.Prelude.{◌≡◌, ◌<◌};
ghost use Rattle.floats.specs.Binary64.{◌⊗◌};
ghost use Rattle.linalg.specs.Linalg.{three, entry};
ghost use Rattle.matrix_inverse.specs.Inverse.{det2x2, lower, upper, minor, cofactor, cofactors, determinant, singular, inverse};

use linalg::{Matrix3x3, Vector3};

fn det2x2(a: f64, b: f64, c: f64, d: f64) -> f64
    ensures { result ≡ det2x2 a b c d }
{
    a * d - b * c
}

// The lower and the upper of the two indices below 3 that are not r.
fn lower(r: usize) -> usize
    ensures { (result ≡ lower r) × (result < 3) }
{
    if r == 0 { 1 } else { 0 }
}

fn upper(r: usize) -> usize
    ensures { (result ≡ upper r) × (result < 3) }
{
    if r == 2 { 1 } else { 2 }
}

// The determinant of what is left of the matrix without row r and column c.
#[tactic(auto, unfolding(crate::specs::Inverse::minor))]
fn minor(m: Matrix3x3, r: usize, c: usize) -> f64
    ensures { result ≡ minor m r c }
{
    let above = lower(r);
    let below = upper(r);
    let left = lower(c);
    let right = upper(c);
    det2x2(
        linalg::entry(m, above, left),
        linalg::entry(m, above, right),
        linalg::entry(m, below, left),
        linalg::entry(m, below, right),
    )
}

#[tactic(auto, unfolding(crate::specs::Inverse::cofactor))]
fn calculate_cofactor(m: Matrix3x3, r: usize, c: usize) -> f64
    requires { (r < 3) × (c < 3) }
    ensures { result ≡ cofactor m r c }
{
    let minor_val = minor(m, r, c);
    if (r + c) % 2 == 0 {
        minor_val
    } else {
        -minor_val
    }
}

fn cofactor_row(m: Matrix3x3, r: usize) -> Vector3
    requires { r < 3 }
    ensures { result ≡ three (λ c. cofactor m r c) }
{
    [
        calculate_cofactor(m, r, 0),
        calculate_cofactor(m, r, 1),
        calculate_cofactor(m, r, 2),
    ]
}

#[tactic(auto, unfolding(crate::specs::Inverse::cofactors))]
fn cofactor_matrix(m: Matrix3x3) -> Matrix3x3
    ensures { result ≡ cofactors m }
{
    [cofactor_row(m, 0), cofactor_row(m, 1), cofactor_row(m, 2)]
}

// A row of the transpose, each entry multiplied by the factor.
fn scaled_column(m: Matrix3x3, j: usize, factor: f64) -> Vector3
    requires { j < 3 }
    ensures { result ≡ three (λ i. entry m i j ⊗ factor) }
{
    let [a, b, c] = linalg::column(m, j);
    [a * factor, b * factor, c * factor]
}

fn scaled_transpose(m: Matrix3x3, factor: f64) -> Matrix3x3
    ensures { result ≡ three (λ i. three (λ j. entry m j i ⊗ factor)) }
{
    [
        scaled_column(m, 0, factor),
        scaled_column(m, 1, factor),
        scaled_column(m, 2, factor),
    ]
}

// Expanded along the first row.
#[tactic(auto, unfolding(crate::specs::Inverse::determinant, crate::specs::Inverse::cofactors))]
fn determinant(m: Matrix3x3) -> f64
    ensures { result ≡ determinant m }
{
    linalg::dot(m[0], cofactor_row(m, 0))
}

// Whether the determinant is too near to zero for an inverse; that of a NaN is not.
#[tactic(auto, unfolding(crate::specs::Inverse::singular))]
pub fn is_singular(m: Matrix3x3) -> bool
    ensures { result ≡ singular m }
{
    floats::binary64::abs_below(determinant(m), 1e-12)
}

// The inverse of a matrix that is not singular; for one that is, the same operations.
#[tactic(auto, unfolding(crate::specs::Inverse::inverse, crate::specs::Inverse::adjugate, crate::specs::Inverse::determinant))]
pub fn inv_3x3_matrix(m: Matrix3x3) -> Matrix3x3
    ensures { result ≡ inverse m }
{
    let cofactors = cofactor_matrix(m);
    let det = linalg::dot(m[0], cofactors[0]);
    let inv_det = 1.0 / det;
    scaled_transpose(cofactors, inv_det)
}
