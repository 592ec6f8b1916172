// A significand divided by a power of two and rounded to a whole number. Nothing is divided: the quotient is a shift.

ghost use Rattle.std.specs.Prelude.{◌≡◌, ◌*◌, ◌/◌, ◌%◌, ◌^◌, ◌<◌, leb};
ghost use Rattle.std.specs.Float.Ieee.Nearest.{closest};
ghost use Rattle.floats.specs.Rounding.{halves_up};

// n / 2^d: the whole part, twice the rest, and 2^d.
#[derive(Clone, Copy)]
struct Quotient {
    whole: u64,
    twice_rest: u64,
    divisor: u64,
}

fn shifted(n: u64, d: u64) -> Quotient
    requires { (n < 2 ^ 63) × (d < 64) }
    ensures { (result.whole ≡ n / 2 ^ d) × (result.twice_rest ≡ n % 2 ^ d * 2) × (result.divisor ≡ 2 ^ d) }
{
    let divisor = 1u64 << d;
    let whole = n >> d;
    Quotient {
        whole,
        twice_rest: (n - whole * divisor) * 2,
        divisor,
    }
}

// n / 2^d to the nearest whole number, a tie to the even one.
pub fn nearest_shifted(n: u64, d: u64) -> u64
    requires { n < 2 ^ 63 }
    ensures { result ≡ closest n (2 ^ d) }
{
    // Less than a half.
    if 63 < d {
        return 0;
    }
    let q = shifted(n, d);
    if q.twice_rest < q.divisor {
        q.whole
    } else if q.divisor < q.twice_rest {
        q.whole + 1
    } else {
        q.whole + q.whole % 2
    }
}

// Whether a quotient is rounded up where a half is: its rest is a half or more.
fn rounds_up(q: Quotient) -> bool
    ensures { result ≡ leb q.divisor q.twice_rest }
{
    q.divisor <= q.twice_rest
}

// n / 2^d to the nearest whole number, a half up.
pub fn halves_up_shifted(n: u64, d: u64) -> u64
    requires { n < 2 ^ 63 }
    ensures { result ≡ halves_up n (2 ^ d) }
{
    // Less than a half.
    if 63 < d {
        return 0;
    }
    let q = shifted(n, d);
    if rounds_up(q) { q.whole + 1 } else { q.whole }
}
