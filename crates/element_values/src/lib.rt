// The values that tag data elements hold (ICC.1:2022, section 10): their sizes and padding, the parameters of the named curves and the
// bytes of `cicp`.

#![tactic(auto)]

ghost use Rattle.std.specs.Prelude.{◌≡◌, ◌≤◌};
ghost use Rattle.profile.specs.Elements as Elements;
ghost use Rattle.profile.specs.Plan.{max_letters};
ghost use Rattle.profile.specs.Shape.{mluc_size};
ghost use Rattle.profile.specs.TagTypes as TagTypes;

use profile::{BT709_GAMMA, Curve, CurveName, DCI_GAMMA, LINEAR_GAMMA, MLUC_TEXT, SRGB_GAMMA};

// How many bytes of padding follow an element of `size` bytes: up to a multiple of 4.
#[tactic(auto, unfolding(profile::specs::Elements::padding))]
pub fn padding(size: usize) -> usize
    ensures { result ≡ Elements.padding size }
{
    (4 - size % 4) % 4
}

// The bytes of an `mluc` element, padding left out.
pub fn mluc_size(letters: usize) -> usize
    requires { letters ≤ max_letters }
    ensures { result ≡ mluc_size letters }
{
    MLUC_TEXT + 2 * letters
}

// The numbers of each named curve, as fixed numbers.
pub fn curve_parameters(name: CurveName) -> [i32; 5]
    ensures { result ≡ TagTypes.parameters name }
{
    match name {
        CurveName::BT709 => [BT709_GAMMA, 59632, 5904, 14564, 5308],
        CurveName::Linear => [LINEAR_GAMMA, 65536, 0, 65536, 0],
        CurveName::SRGB => [SRGB_GAMMA, 62119, 3417, 5072, 2651],
        CurveName::DCI => [DCI_GAMMA, 65536, 0, 65536, 0],
    }
}

// The value of TransferCharacteristics; a gamma has none, and no `cicp` tag.
fn transfer(curve: Curve) -> u8
    ensures { result ≡ TagTypes.transfer curve }
{
    match curve {
        Curve::Named(CurveName::BT709) => 1,
        Curve::Named(CurveName::Linear) => 8,
        Curve::Named(CurveName::SRGB) => 13,
        Curve::Named(CurveName::DCI) => 17,
        Curve::Gamma(_) => 0,
    }
}

// The full-range flag of `cicp`.
const FULL_RANGE: u8 = 1;

// A `cicp` element: primaries, transfer, matrix coefficients 0, full range.
#[tactic(auto, unfolding(profile::specs::TagTypes::cicp, profile::specs::TagTypes::join))]
pub fn cicp_bytes(primaries: u8, curve: Curve) -> [u8; 12]
    ensures { result ≡ TagTypes.cicp primaries curve }
{
    let transfer = transfer(curve);
    [
        b'c', b'i', b'c', b'p', 0, 0, 0, 0, primaries, transfer, 0, FULL_RANGE,
    ]
}
