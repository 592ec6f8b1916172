// The decimal digits of a whole number, written into a slice that the caller lends.
// They come by multiplications, shifts, comparisons and subtractions: nothing is divided but by powers of two.

#![tactic(auto)]

ghost use Rattle.std.specs.Prelude.{◌≡◌, ◌+◌, ◌/◌, ◌^◌, ◌<◌, ◌≤◌, length};
ghost use Rattle.buffer.specs.Puts.{PutsText};
ghost use Rattle.digits.specs.Digits.{digits, last_digits};

// These functions are written out for each number of digits: the program `divisions`, which searches this file, takes the call of a closure or a method
// for a fault.

// Two digits. n * 103 / 1024 is n / 10 for these n.
fn put_two(out: &mut [u8], at: usize, n: u64) -> usize
    requires { (n < 100) × (at + 2 ≤ length out.old) }
    ensures { PutsText out.old at (last_digits 2 n) result out.new }
{
    let tens = (n * 103) >> 10;
    out[at] = (48 + tens) as u8;
    out[at + 1] = (48 + (n - tens * 10)) as u8;
    at + 2
}

// n / 100, as n * 5243 / 2^19.
fn hundreds(n: u64) -> u64
    requires { n < 10 ^ 4 }
    ensures { result ≡ n / 100 }
{
    (n * 5243) >> 19
}

// n / 10000, as n * 109951163 / 2^40.
fn ten_thousands(n: u64) -> u64
    requires { n < 10 ^ 8 }
    ensures { result ≡ n / 10 ^ 4 }
{
    (n * 109951163) >> 40
}

// Four digits.
fn put_four(out: &mut [u8], at: usize, n: u64) -> usize
    requires { (n < 10 ^ 4) × (at + 4 ≤ length out.old) }
    ensures { PutsText out.old at (last_digits 4 n) result out.new }
{
    let high = hundreds(n);
    let i = put_two(&mut *out, at, high);
    put_two(&mut *out, i, n - high * 100)
}

// Eight digits.
pub fn put_eight(out: &mut [u8], at: usize, n: u64) -> usize
    requires { (n < 10 ^ 8) × (at + 8 ≤ length out.old) }
    ensures { PutsText out.old at (last_digits 8 n) result out.new }
{
    let high = ten_thousands(n);
    let i = put_four(&mut *out, at, high);
    put_four(&mut *out, i, n - high * 10000)
}

// n without leading zeros: one digit or two.
fn put_up_to_two(out: &mut [u8], at: usize, n: u64) -> usize
    requires { (n < 100) × (at + 2 ≤ length out.old) }
    ensures { PutsText out.old at (digits n) result out.new }
{
    if n < 10 {
        out[at] = (48 + n) as u8;
        return at + 1;
    }
    put_two(out, at, n)
}

// n without leading zeros: up to four digits.
pub fn put_up_to_four(out: &mut [u8], at: usize, n: u64) -> usize
    requires { (n < 10 ^ 4) × (at + 4 ≤ length out.old) }
    ensures { PutsText out.old at (digits n) result out.new }
{
    if n < 100 {
        return put_up_to_two(out, at, n);
    }
    let high = hundreds(n);
    let i = put_up_to_two(&mut *out, at, high);
    put_two(&mut *out, i, n - high * 100)
}

// n without leading zeros: up to eight digits.
pub fn put_up_to_eight(out: &mut [u8], at: usize, n: u64) -> usize
    requires { (n < 10 ^ 8) × (at + 8 ≤ length out.old) }
    ensures { PutsText out.old at (digits n) result out.new }
{
    if n < 10000 {
        return put_up_to_four(out, at, n);
    }
    let high = ten_thousands(n);
    let i = put_up_to_four(&mut *out, at, high);
    put_four(&mut *out, i, n - high * 10000)
}
