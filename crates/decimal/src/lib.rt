// Floats printed to seven decimals, as Rust's `{:.7}` prints them, straight into a slice that the caller lends.
// Nothing is divided but by powers of two.

#![tactic(auto)]

ghost use Rattle.std.specs.Prelude.{◌≡◌, not, ◌∷◌, ◌+◌, ◌*◌, ◌-◌, ◌^◌, ◌<◌, ◌≤◌, eqb, ltb, length};
ghost use Rattle.std.specs.Float.{binary32};
ghost use Rattle.std.specs.Float.Ieee.Nearest.{closest};
ghost use Rattle.floats.specs.Fields.{significand};
ghost use Rattle.digits.specs.Digits.{digits, last_digits};
ghost use Rattle.buffer.specs.Puts.{PutsText};
ghost use Rattle.buffer.specs.Texts.{IsText};
ghost use Rattle.decimal.specs.Seven.{minus, with_point, seven_decimals};
ghost use Rattle.decimal.specs.Parts.{value_of, Proper, part};

use buffer::put_bytes;
use digits::put_eight;
// A line of its own: the program `divisions` reads no list of names.
use digits::put_up_to_eight;
use floats::rounding::nearest_shifted;

// A whole number below 10^40 by five parts of eight decimal digits, the lowest first.
type Parts = [u64; 5];

// A number of seven decimals: its whole part, and the decimals.
#[derive(Clone, Copy)]
struct Fixed {
    whole: u64,
    decimals: u64,
}

// A part and what goes over into the next.
#[derive(Clone, Copy)]
struct Carried {
    part: u64,
    carry: u64,
}

// The point and seven decimals: eight digits, of which the first gives its place to the point.
fn put_decimals(out: &mut [u8], at: usize, n: u64) -> usize
    requires { (n < 10 ^ 7) × (at + 8 ≤ length out.old) }
    ensures { PutsText out.old at (46 ∷ last_digits 7 n) result out.new }
{
    let end = put_eight(&mut *out, at, n);
    out[at] = 46;
    end
}

// A whole part and seven decimals.
fn put_with_point(out: &mut [u8], at: usize, whole: u64, rest: u64) -> usize
    requires { ((whole < 10 ^ 8) × (rest < 10 ^ 7)) × (at + 16 ≤ length out.old) }
    ensures { PutsText out.old at (with_point (whole * 10 ^ 7 + rest)) result out.new }
{
    let i = put_up_to_eight(&mut *out, at, whole);
    put_decimals(&mut *out, i, rest)
}

// m / 2^d to seven decimals. From d = 49 on it is less than half of the last decimal.
fn rounded(m: u64, d: u64) -> Fixed
    requires { m < 2 ^ 24 }
    ensures { ((result.whole < 10 ^ 8) × (result.decimals < 10 ^ 7)) × (closest (m * 10 ^ 7) (2 ^ d) ≡ result.whole * 10 ^ 7 + result.decimals) }
{
    if 48 < d {
        return Fixed {
            whole: 0,
            decimals: 0,
        };
    }
    let q = nearest_shifted(m * 10000000, d);
    let whole = m >> d;
    let decimals = q - whole * 10000000;
    if decimals == 10000000 {
        return Fixed {
            whole: whole + 1,
            decimals: 0,
        };
    }
    Fixed { whole, decimals }
}

// m / 2^d, for a value with a fraction.
fn put_fraction(out: &mut [u8], at: usize, m: u64, d: u64) -> usize
    requires { (m < 2 ^ 24) × (at + 16 ≤ length out.old) }
    ensures { PutsText out.old at (with_point (closest (m * 10 ^ 7) (2 ^ d))) result out.new }
{
    let r = rounded(m, d);
    put_with_point(out, at, r.whole, r.decimals)
}

// 2 * part + carry, by its last eight digits and the one before.
fn twice(part: u64, carry: u64) -> Carried
    requires { (part < 10 ^ 8) × (carry ≤ 1) }
    ensures { ((result.part < 10 ^ 8) × (result.carry ≤ 1)) × (result.part + 10 ^ 8 * result.carry ≡ 2 * part + carry) }
{
    let sum = part * 2 + carry;
    if sum < 100000000 {
        Carried {
            part: sum,
            carry: 0,
        }
    } else {
        Carried {
            part: sum - 100000000,
            carry: 1,
        }
    }
}

fn double(parts: &mut Parts)
    requires { Proper parts.old × (2 * value_of parts.old < 10 ^ 40) }
    ensures { (value_of parts.new ≡ 2 * value_of parts.old) × Proper parts.new }
{
    let mut carry = 0;
    for i in 0..5 {
        let next = twice(parts[i], carry);
        parts[i] = next.part;
        carry = next.carry;
    }
}

// m doubled k times.
fn shifted(m: u64, k: u64) -> Parts
    requires { (m < 2 ^ 24) × (k ≤ 104) }
    ensures { (value_of result ≡ m * 2 ^ k) × Proper result }
{
    let mut parts = [m, 0, 0, 0, 0];
    for _turn in 0..k {
        double(&mut parts);
    }
    parts
}

// A part of a number whose digits begin at `start`. As long as none is written, leading zeros are left out.
fn put_part(out: &mut [u8], start: usize, at: usize, n: u64) -> usize
    requires { (n < 10 ^ 8) × (at + 8 ≤ length out.old) }
    ensures { PutsText out.old at (part (ltb start at) n) result out.new }
{
    if start < at {
        return put_eight(out, at, n);
    }
    if n == 0 {
        return at;
    }
    put_up_to_eight(out, at, n)
}

// The digits of a number above zero, from the highest part on.
fn put_parts(out: &mut [u8], at: usize, parts: Parts) -> usize
    requires { (Proper parts × (0 < value_of parts)) × (at + 40 ≤ length out.old) }
    ensures { PutsText out.old at (digits (value_of parts)) result out.new }
{
    let mut next = at;
    for i in 0..5 {
        next = put_part(&mut *out, at, next, parts[4 - i]);
    }
    next
}

// m * 2^k to seven decimals, for a whole number from 2^23 on.
fn put_whole(out: &mut [u8], at: usize, m: u64, k: u64) -> usize
    requires { ((0 < m) × (m < 2 ^ 24)) × ((k ≤ 104) × (at + 47 ≤ length out.old)) }
    ensures { PutsText out.old at (with_point (m * 2 ^ k * 10 ^ 7)) result out.new }
{
    let i = put_parts(&mut *out, at, shifted(m, k));
    put_decimals(&mut *out, i, 0)
}

// A finite value without its sign, by the fields of its binary32 pattern: (2^23 + fraction) * 2^(field - 150), or fraction * 2^-149 for the field 0.
fn put_magnitude(out: &mut [u8], at: usize, field: u64, fraction: u64) -> usize
    requires { ((field < 255) × (fraction < 2 ^ 23)) × (at + 47 ≤ length out.old) }
    ensures { PutsText out.old at (with_point (closest (significand binary32 field fraction * 2 ^ (field - 1) * 10 ^ 7) (2 ^ 149))) result out.new }
{
    if field == 0 {
        return put_fraction(out, at, fraction, 149);
    }
    if field < 150 {
        return put_fraction(out, at, 8388608 + fraction, 150 - field);
    }
    put_whole(out, at, 8388608 + fraction, field - 150)
}

// The minus of a negative number.
fn put_minus(out: &mut [u8], at: usize, sign: u64) -> usize
    requires { at + 1 ≤ length out.old }
    ensures { PutsText out.old at (minus (not (eqb sign 0))) result out.new }
{
    if sign == 0 {
        return at;
    }
    out[at] = 45;
    at + 1
}

// x to seven decimals from `at` on; answers the place after it.
pub fn put_seven_decimals(out: &mut [u8], at: usize, x: f32) -> usize
    requires { at + 48 ≤ length out.old }
    ensures { PutsText out.old at (seven_decimals x) result out.new }
{
    // No method such as `is_nan`: the program `divisions` reads no calls of methods.
    if x != x {
        return put_bytes(out, at, b"NaN");
    }
    let bits = f32::to_bits(x) as u64;
    let i = put_minus(&mut *out, at, bits / 2147483648);
    let field = bits % 2147483648 / 8388608;
    if field == 255 {
        return put_bytes(out, i, b"inf");
    }
    put_magnitude(out, i, field, bits % 8388608)
}

pub fn seven_decimals(x: f32) -> buffer::Text<48>
    ensures { IsText (seven_decimals x) result }
{
    let mut bytes = [0u8; 48];
    let len = put_seven_decimals(&mut bytes, 0, x);
    buffer::Text { bytes, len }
}
