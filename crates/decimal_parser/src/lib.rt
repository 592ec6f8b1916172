// A float read from a text: an optional minus, one or two whole digits without a needless leading zero, a point, seven digits. Its value is worked
// out by whole numbers: the decimal is q / 10^7.

#![tactic(auto)]

ghost use Rattle.std.specs.Prelude.{◌≡◌, Bool, cond, ◌+◌, ◌*◌, ◌^◌, ◌<◌, ◌≤◌, drop};
ghost use Rattle.std.specs.Float.{binary32};
ghost use Rattle.std.specs.Float.Ieee.{of_bits, round};
ghost use Rattle.std.specs.Float.Ieee.Nearest.{closest};
ghost use Rattle.scanner.specs.Places.{found_at};
ghost use Rattle.decimal_parser.specs.ParseFloat.{whole_part, more_digits, unsigned, with_sign, float};
ghost use Rattle.decimal_parser.specs.FloatPlaces.{front_digit};

use scanner::past;

// ---- the nearest f32 of q / 10^7

// n / 10^7 to the nearest whole number, a tie to the even one.
fn nearest_quotient(n: u64) -> u64
    requires { n < 2 ^ 48 }
    ensures { result ≡ closest n (10 ^ 7) }
{
    let whole = n / 10000000;
    let twice_rest = n % 10000000 * 2;
    if twice_rest < 10000000 {
        whole
    } else if 10000000 < twice_rest {
        whole + 1
    } else {
        whole + whole % 2
    }
}

// A number n = q * 2^j.
#[derive(Clone, Copy)]
struct Scaled {
    n: u64,
    j: u64,
}

// q is shifted until q * 2^j / 10^7 has 24 binary digits before the point.
fn scale(q: u64) -> Scaled
    requires { (0 < q) × (q < 10 ^ 9) }
    ensures { (result.n ≡ q * 2 ^ result.j) × (2 ^ 23 * 10 ^ 7 ≤ result.n) × (result.n < 2 ^ 24 * 10 ^ 7) × (result.j ≤ 149) }
{
    let j = q.leading_zeros() as u64 - 17;
    let n = q << j;
    if n < 83886080000000 {
        Scaled { n: n * 2, j: j + 1 }
    } else {
        Scaled { n, j }
    }
}

// The binary32 pattern of q / 10^7, without its sign. The 24 digits are the significand, and the exponent's field, less one, is 149 - j; a carry out
// of the rounded digits moves the field up by itself.
fn magnitude(q: u64) -> u64
    requires { q < 10 ^ 9 }
    ensures { (result ≤ 0x7f80_0000) × ((s : Bool) → of_bits binary32 (cond s (2 ^ 31) 0 + result) ≡ round binary32 s q (10 ^ 7)) }
{
    if q == 0 {
        return 0;
    }
    let Scaled { n, j } = scale(q);
    (149 - j) * 8388608 + nearest_quotient(n)
}

// The f32 nearest to q / 10^7, a tie to the even one, with a sign.
fn nearest_f32(negative: bool, q: u64) -> f32
    requires { q < 10 ^ 9 }
    ensures { result ≡ round binary32 negative q (10 ^ 7) }
{
    let m = magnitude(q);
    if negative {
        return f32::from_bits((2147483648 + m) as u32);
    }
    f32::from_bits(m as u32)
}

// ---- numbers in a text

// The digit at a place.
fn digit_at(text: &[u8], at: usize) -> Option<u64>
    ensures { result ≡ front_digit (drop at text.now) }
{
    match text.get(at)? {
        c @ b'0'..=b'9' => Some(u64::from(*c - b'0')),
        _ => None,
    }
}

// One digit, or two of which the first is not zero, and the point.
fn whole_at(text: &[u8], at: usize) -> Option<(u64, usize)>
    ensures { found_at text.now result ≡ whole_part (drop at text.now) }
{
    let a = digit_at(text, at)?;
    if let Some(next) = past(text, at + 1, b".") {
        return Some((a, next));
    }
    if a == 0 {
        return None;
    }
    let b = digit_at(text, at + 1)?;
    let next = past(text, at + 2, b".")?;
    Some((a * 10 + b, next))
}

// A whole part followed by seven digits, times 10^7.
fn seven_digits(text: &[u8], at: usize, whole: u64) -> Option<(u64, usize)>
    requires { whole < 100 }
    ensures { found_at text.now result ≡ more_digits 7 whole (drop at text.now) }
{
    let mut q = whole;
    for i in 0..7 {
        let d = digit_at(text, at + i)?;
        q = q * 10 + d;
    }
    Some((q, at + 7))
}

// A number without its sign, times 10^7.
#[tactic(auto, unfolding(crate::specs::ParseFloat::unsigned))]
fn unsigned_at(text: &[u8], at: usize) -> Option<(u64, usize)>
    ensures { found_at text.now result ≡ unsigned (drop at text.now) }
{
    let (whole, next) = whole_at(text, at)?;
    seven_digits(text, next, whole)
}

// The float of the digits at a place, with a sign.
#[tactic(auto, unfolding(crate::specs::ParseFloat::with_sign))]
fn signed_at(text: &[u8], at: usize, negative: bool) -> Option<(f32, usize)>
    ensures { found_at text.now result ≡ with_sign negative (drop at text.now) }
{
    let (q, next) = unsigned_at(text, at)?;
    Some((nearest_f32(negative, q), next))
}

// The float at a place.
#[tactic(auto, unfolding(crate::specs::ParseFloat::float))]
pub fn float_at(text: &[u8], at: usize) -> Option<(f32, usize)>
    ensures { found_at text.now result ≡ float (drop at text.now) }
{
    match past(text, at, b"-") {
        Some(digits) => signed_at(text, digits, true),
        None => signed_at(text, at, false),
    }
}
