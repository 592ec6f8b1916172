// The fixed numbers of an encoding's white and primaries.

#![tactic(auto)]

ghost use Rattle.std.specs.Prelude.{◌≡◌};
ghost use Rattle.buffer.specs.Checked.{each};
ghost use Rattle.numbers.specs.Fixed.{fixed_or};
ghost use Rattle.numbers.specs.Rounded.{counted};
ghost use Rattle.refusals.specs.Refusals.{number, checked};
ghost use Rattle.encoding_numbers.specs.NumbersOf.{gray_numbers, chad_numbers, column_numbers, gray_floats, chad_floats, column_floats};

use color_encoding::{PrimariesXy, WhiteXy};
use numbers::Counted;
use refusals::Refusal;

// X and Z of the white of a gray profile. Its Y is 1, which is whole.
pub fn gray_numbers(white: WhiteXy) -> Result<Counted<(i32, i32)>, Refusal>
    ensures { checked result ≡ counted (gray_floats white) (gray_numbers white) }
{
    let [x, _, z] = white_point::cie_xyz_from_white_cie_xy(white)?;
    let x = numbers::to_s15_fixed_16(x).ok_or(Refusal::ValueOutOfRange)?;
    let z = numbers::to_s15_fixed_16(z).ok_or(Refusal::ValueOutOfRange)?;
    Ok(Counted {
        value: (x.number, z.number),
        rounded: numbers::one_if_rounded(x.whole) + numbers::one_if_rounded(z.whole),
    })
}

// The fixed numbers of nine floats.
fn fixed_numbers(v: [f32; 9], refusal: Refusal) -> Result<Counted<[i32; 9]>, Refusal>
    ensures { checked result ≡ counted v (each (fixed_or (number refusal)) v) }
{
    let mut value = [0; 9];
    let mut rounded = 0;
    for k in 0..9 {
        let fixed = numbers::to_s15_fixed_16(v[k]).ok_or(refusal)?;
        value[k] = fixed.number;
        rounded += numbers::one_if_rounded(fixed.whole);
    }
    Ok(Counted { value, rounded })
}

// The nine numbers of `chad`, by rows.
pub fn chad_numbers(white: WhiteXy) -> Result<Counted<[i32; 9]>, Refusal>
    ensures { checked result ≡ counted (chad_floats white) (chad_numbers white) }
{
    let chad = adaptation::chad_matrix(white)?;
    fixed_numbers(icc_matrix::rows(chad), Refusal::ChadOutOfRange)
}

// The nine numbers of `rXYZ`, `gXYZ` and `bXYZ`.
pub fn column_numbers(primaries: PrimariesXy, white: WhiteXy) -> Result<Counted<[i32; 9]>, Refusal>
    ensures { checked result ≡ counted (column_floats primaries white) (column_numbers primaries white) }
{
    let m = colorimetry::create_icc_rgb_matrix(primaries, white)?;
    fixed_numbers(icc_matrix::columns(m), Refusal::ValueOutOfRange)
}
