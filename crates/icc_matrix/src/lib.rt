// The f32 matrix that a profile holds: narrowed from f64, and its entries in file order.

#![tactic(auto)]

ghost use Rattle.std.specs.Prelude.{◌≡◌};
ghost use Rattle.floats.specs.Narrow.{narrow};
ghost use Rattle.linalg.specs.Linalg.{three, component, rows, columns};
ghost use Rattle.icc_matrix.specs.Narrowed.{narrowed};

use linalg::{Matrix3x3, Vector3};

fn narrowed_row(row: Vector3) -> [f32; 3]
    ensures { result ≡ three (λ j. narrow (component row j)) }
{
    row.map(floats::f64_to_f32)
}

// Each entry rounded once to f32.
#[tactic(auto, unfolding(crate::specs::Narrowed::narrowed))]
pub fn narrowed(matrix: Matrix3x3) -> [[f32; 3]; 3]
    ensures { result ≡ narrowed matrix }
{
    matrix.map(narrowed_row)
}

// The nine entries, row by row.
pub fn rows(m: [[f32; 3]; 3]) -> [f32; 9]
    ensures { result ≡ rows m }
{
    linalg::rows(m)
}

// The nine entries, column by column.
pub fn columns(m: [[f32; 3]; 3]) -> [f32; 9]
    ensures { result ≡ columns m }
{
    linalg::columns(m)
}
