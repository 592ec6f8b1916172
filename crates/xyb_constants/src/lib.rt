// The numbers of an XYB profile, stored. The Rust works them out in floats each time: specs/XybNumbers.antt has its steps, and each
// table is proved to be what they give. Fixed numbers are ICC.1's s15Fixed16Number.

#![tactic(auto)]

ghost use Rattle.std.specs.Prelude.{◌≡◌};
ghost use Rattle.xyb_constants.specs.XybNumbers.{clut, m_curves, matrix, chad};

// The color look-up table of A2B0: three values for each corner of a cube.
#[tactic(auto, using(crate::proofs::XybNumbersLaws::clut_is))]
pub fn clut() -> [u16; 24]
    ensures { result ≡ clut }
{
    [
        // x 0, y 0, b 0
        0, 3206, 0,
        // x 0, y 0, b 1
        0, 3206, 28873,
        // x 0, y 1, b 0
        62329, 65535, 36662,
        // x 0, y 1, b 1
        62329, 65535, 65535,
        // x 1, y 0, b 0
        3206, 0, 0,
        // x 1, y 0, b 1
        3206, 0, 28873,
        // x 1, y 1, b 0
        65535, 62329, 36662,
        // x 1, y 1, b 1
        65535, 62329, 65535,
    ]
}

// The M curves of A2B0, parametric curves of type 3, as fixed numbers: gamma, a, b, c, d of each.
#[tactic(auto, using(crate::proofs::XybNumbersLaws::m_curves_is))]
pub fn m_curves() -> [i32; 15]
    ensures { result ≡ m_curves }
{
    [
        // first
        196608, 58248, 9212, 0, 0,
        // second
        196608, 58248, 8379, 0, 0,
        // third
        196608, 99027, -7979, 0, 5281,
    ]
}

// The matrix of A2B0 as fixed numbers, row by row, then the three intercepts.
#[tactic(auto, using(crate::proofs::XybNumbersLaws::matrix_is))]
pub fn matrix() -> [i32; 12]
    ensures { result ≡ matrix }
{
    [
        // rows
        99419, -72517, 4694, -3278, 37248, -1202, -90943, 73044, 44940,
        // intercepts
        -120, -124, -103,
    ]
}

// The adaptation of D65 to D50 as fixed numbers, row by row.
#[tactic(auto, using(crate::proofs::XybNumbersLaws::chad_is))]
pub fn chad() -> [i32; 9]
    ensures { result ≡ chad }
{
    [
        // first row
        68672, 1501, -3287,
        // second row
        1938, 64912, -1118,
        // third row
        -606, 987, 49281,
    ]
}
