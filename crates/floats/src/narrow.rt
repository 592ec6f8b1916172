// An f64 rounded to an f32, worked out from the bits: a cast takes only what the narrower format holds.

ghost use Rattle.std.specs.Prelude.{◌≡◌, Bool, cond, ◌+◌, ◌^◌, ◌<◌, ◌≤◌};
ghost use Rattle.std.specs.Float.{binary32, binary64};
ghost use Rattle.std.specs.Float.Ieee.{of_bits, of_fields};
ghost use Rattle.floats.specs.Narrow.{narrow};

use crate::rounding::nearest_shifted;

// The binary32 pattern, without its sign, of the finite binary64 value with this exponent field and these 52 digits. The field
// of 2^e is e + 1023, and in binary32 e + 127: the least binary32 value with a leading digit, 2^-126, has the field 897 here.
// Below it the pattern is the value in units of 2^-149, which is 0 where the value is below 2^-151. From it on the pattern is the
// field and the 23 digits; a carry out of the rounded digits moves the field up by itself.
fn magnitude(field: u64, digits: u64) -> u64
    requires { (field < 2047) × (digits < 2 ^ 52) }
    ensures { (result ≤ 0x7f80_0000) × ((s : Bool) → of_bits binary32 (cond s (2 ^ 31) 0 + result) ≡ narrow (of_fields binary64 s field digits)) }
{
    if field < 872 {
        return 0;
    }
    if field < 897 {
        return nearest_shifted(4503599627370496 + digits, 926 - field);
    }
    let m = (field - 897) * 8388608 + nearest_shifted(4503599627370496 + digits, 29);
    m.min(0x7f80_0000)
}

// x rounded once to an f32: to the nearest, a tie to the even digit, beyond the range an infinity.
pub fn f64_to_f32(x: f64) -> f32
    ensures { result ≡ narrow x }
{
    if x.is_nan() {
        return 0.0 / 0.0;
    }
    let b = f64::to_bits(x);
    let sign = b / 9223372036854775808 * 2147483648;
    let field = b % 9223372036854775808 / 4503599627370496;
    let digits = b % 4503599627370496;
    if field == 2047 {
        return f32::from_bits((sign + 0x7f80_0000) as u32);
    }
    f32::from_bits((sign + magnitude(field, digits)) as u32)
}
