// 3 by 3 matrices and 3-vectors by value, their entries, and the products of those of f64: util/linalg.rs. (The inverse is in matrix_inverse.)

#![tactic(auto)]

ghost use Rattle.std.specs.Prelude.{◌≡◌, ◌<◌, ◌++◌};
ghost use Rattle.linalg.specs.Linalg.{three, entry_or, column, dot, applied, product};

pub type Matrix3x3 = [[f64; 3]; 3];

pub type Vector3 = [f64; 3];

pub fn entry<T: Copy>(m: [[T; 3]; 3], i: usize, j: usize) -> T
    requires { (i < 3) × (j < 3) }
    ensures { (d : T) → result ≡ entry_or d m i j }
{
    m[i][j]
}

pub fn column<T: Copy>(m: [[T; 3]; 3], j: usize) -> [T; 3]
    requires { j < 3 }
    ensures { (d : T) → result ≡ three (λ i. entry_or d m i j) }
{
    [entry(m, 0, j), entry(m, 1, j), entry(m, 2, j)]
}

// The nine entries, row by row.
pub fn rows<T: Copy>(m: [[T; 3]; 3]) -> [T; 9]
    ensures { (d : T) → result ≡ three (entry_or d m 0) ++ three (entry_or d m 1) ++ three (entry_or d m 2) }
{
    let [[a, b, c], [d, e, f], [g, h, i]] = m;
    [a, b, c, d, e, f, g, h, i]
}

// The nine entries, column by column.
pub fn columns<T: Copy>(m: [[T; 3]; 3]) -> [T; 9]
    ensures { (d : T) → result ≡ three (λ i. entry_or d m i 0) ++ three (λ i. entry_or d m i 1) ++ three (λ i. entry_or d m i 2) }
{
    let [[a, b, c], [d, e, f], [g, h, i]] = m;
    [a, d, g, b, e, h, c, f, i]
}

// The sum of the products of like components. It starts with its first term.
#[tactic(auto, unfolding(crate::specs::Linalg::dot))]
pub fn dot(a: Vector3, b: Vector3) -> f64
    ensures { result ≡ dot a b }
{
    a[0] * b[0] + a[1] * b[1] + a[2] * b[2]
}

#[tactic(auto, unfolding(crate::specs::Linalg::applied))]
pub fn mul_3x3_vector(matrix: Matrix3x3, vector: Vector3) -> Vector3
    ensures { result ≡ applied matrix vector }
{
    [
        dot(matrix[0], vector),
        dot(matrix[1], vector),
        dot(matrix[2], vector),
    ]
}

// A row of the product of two matrices, from that row of the first. (Arrays are written out: with `map` or `from_fn` at a closure that captures,
// as here, the proof was tried and didn't close.)
fn product_row(row: Vector3, matrix: Matrix3x3) -> Vector3
    ensures { result ≡ three (λ j. dot row (column matrix j)) }
{
    [
        dot(row, column(matrix, 0)),
        dot(row, column(matrix, 1)),
        dot(row, column(matrix, 2)),
    ]
}

#[tactic(auto, unfolding(crate::specs::Linalg::product))]
pub fn mul_3x3_matrix(mat1: Matrix3x3, mat2: Matrix3x3) -> Matrix3x3
    ensures { result ≡ product mat1 mat2 }
{
    [
        product_row(mat1[0], mat2),
        product_row(mat1[1], mat2),
        product_row(mat1[2], mat2),
    ]
}
