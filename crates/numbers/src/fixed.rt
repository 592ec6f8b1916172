// The s15Fixed16Number of an f32, worked out from the bits.

ghost use Rattle.std.specs.Prelude.{◌≡◌, ◌*◌, ◌-◌, ◌^◌, ◌<◌, ◌≤◌};
ghost use Rattle.std.specs.Float.{binary32};
ghost use Rattle.floats.specs.Fields.{significand};
ghost use Rattle.floats.specs.Rounding.{halves_up};
ghost use Rattle.numbers.specs.Fixed.{signed, whole_fraction, s15_fixed16};
ghost use Rattle.numbers.specs.Rounded.{one_if_rounded};

use floats::rounding::halves_up_shifted;

// The largest magnitude of a fixed number, 32767.994140625 in 65536ths.
pub const LARGEST: i32 = 2147483264;

// A fixed number, and whether it is exact: value * 65536 is whole.
#[derive(Clone, Copy, Debug, PartialEq, Eq)]
pub struct S15Fixed16 {
    pub number: i32,
    pub whole: bool,
}

// A value, and how many of the fixed numbers in it were rounded.
#[derive(Clone, Copy, Debug, PartialEq, Eq)]
pub struct Counted<T> {
    pub value: T,
    pub rounded: u32,
}

// The digits of a binary32 value with these fields, the leading one, 2^23, put back.
fn significand(field: u64, digits: u64) -> u64
    requires { digits < 2 ^ 23 }
    ensures { result ≡ significand binary32 field digits }
{
    if field == 0 { digits } else { 8388608 + digits }
}

// How many places the last of them stands above the last place of all, 2^-149.
fn exponent(field: u64) -> u64
    ensures { result ≡ field - 1 }
{
    if field == 0 { 0 } else { field - 1 }
}

// How many 65536ths q * 2^k units of 2^-149 are, to the nearest whole number, halves up. A 65536th is 2^133 of these units.
fn scaled(q: u64, k: u64) -> u64
    requires { (q < 2 ^ 24) × (k ≤ 140) }
    ensures { (result ≡ halves_up (q * 2 ^ k * 65536) (2 ^ 149)) × (result < 2 ^ 31) }
{
    if 133 <= k {
        return q << (k - 133);
    }
    halves_up_shifted(q, 133 - k)
}

// Whether they are a whole number of 65536ths: the digits below a 65536th are zeros.
fn is_whole(q: u64, k: u64) -> bool
    requires { (q < 2 ^ 24) × (k ≤ 140) }
    ensures { result ≡ whole_fraction (q * 2 ^ k) (2 ^ 149) }
{
    if 133 <= k {
        return true;
    }
    let d = 133 - k;
    // All digits lie below.
    if 63 < d {
        return q == 0;
    }
    (q >> d) << d == q
}

fn with_sign(negative: bool, n: u64) -> i32
    requires { n < 2 ^ 31 }
    ensures { result ≡ signed negative n }
{
    if negative { 0 - (n as i32) } else { n as i32 }
}

// The fixed number of value, halves away from zero. A value that is not finite or lies outside the range has none: an exponent field
// above 141 is that of 32768 and more.
pub fn to_s15_fixed_16(value: f32) -> Option<S15Fixed16>
    ensures { result ≡ s15_fixed16 value }
{
    if value.is_nan() {
        return None;
    }
    let b = f32::to_bits(value) as u64;
    let field = b % 2147483648 / 8388608;
    let digits = b % 8388608;
    if 141 < field {
        return None;
    }
    let q = significand(field, digits);
    let k = exponent(field);
    let n = scaled(q, k);
    if (LARGEST as u64) < n {
        return None;
    }
    Some(S15Fixed16 {
        number: with_sign(2147483648 <= b, n),
        whole: is_whole(q, k),
    })
}

// What a number adds to a count of those that were rounded.
pub fn one_if_rounded(whole: bool) -> u32
    ensures { result ≡ one_if_rounded whole }
{
    if whole { 0 } else { 1 }
}
