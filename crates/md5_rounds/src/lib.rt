// The four rounds of MD5, as RFC 1321 defines them. The sections named below are the RFC's.

#![tactic(auto)]

ghost use Rattle.std.specs.Prelude.{◌≡◌, ℕ, ◌-◌, ◌<◌, ◌≤◌, IsTrue, slice_index};
ghost use Rattle.md5_rounds.specs.Rounds as Rounds;
ghost use Rattle.md5_rounds.specs.Rounds.{sine_parts, operate, operations, round1, round2, round3, round4};
ghost use Rattle.md5_rounds.specs.Tables.{are_operations};

// The four words A, B, C, D of the buffer (3.3).
#[derive(Clone, Copy)]
pub struct State {
    pub a: u32,
    pub b: u32,
    pub c: u32,
    pub d: u32,
}

// One of the four auxiliary functions (3.4).
trait Auxiliary {
    ghost of: { ℕ → ℕ → ℕ → ℕ };

    fn at(x: u32, y: u32, z: u32) -> u32
        ensures { result ≡ of x y z };
}

struct F;

struct G;

struct H;

struct I;

impl Auxiliary for F {
    ghost of = { Rounds.F };

    fn at(x: u32, y: u32, z: u32) -> u32 {
        (x & y) | (!x & z)
    }
}

impl Auxiliary for G {
    ghost of = { Rounds.G };

    fn at(x: u32, y: u32, z: u32) -> u32 {
        (x & z) | (y & !z)
    }
}

impl Auxiliary for H {
    ghost of = { Rounds.H };

    fn at(x: u32, y: u32, z: u32) -> u32 {
        x ^ y ^ z
    }
}

impl Auxiliary for I {
    ghost of = { Rounds.I };

    fn at(x: u32, y: u32, z: u32) -> u32 {
        y ^ (x | !z)
    }
}

// One operation [abcd k s i] (3.4), with x for X[k] and t for T[i]: a becomes b + ((a + f(b,c,d) + x + t) <<< s), and the words move on by one place.
fn operate<R: Auxiliary>(w: State, x: u32, s: u32, t: u32) -> State
    requires { (0 < s) × (s < 32) }
    ensures { result ≡ operate R.of x s t w }
{
    let sum = w
        .a
        .wrapping_add(R::at(w.b, w.c, w.d))
        .wrapping_add(x)
        .wrapping_add(t);
    State {
        a: w.d,
        b: w.b.wrapping_add(sum.rotate_left(s)),
        c: w.b,
        d: w.c,
    }
}

// The operations k, s, i of a round, one after the other. The sine parts are handed in, since a literal in a step would be added last, where the next
// step waits for the sum.
fn round<R: Auxiliary>(
    words: &[u32; 16],
    t: &[u32; 64],
    mut w: State,
    table: &[(usize, u32, usize); 16],
) -> State
    requires sine_parts { t.now ≡ sine_parts }
    requires operations { IsTrue (are_operations table.now) }
    ensures { result ≡ operations R.of words.now table.now w }
{
    for &(k, s, i) in table {
        w = operate::<R>(w, words[k], s, t[i - 1]);
    }
    w
}

#[tactic(auto, unfolding(crate::specs::Rounds::round1))]
pub fn round_1(words: &[u32; 16], t: &[u32; 64], w: State) -> State
    requires { t.now ≡ sine_parts }
    ensures { result ≡ round1 words.now w }
{
    let table = [
        (0, 7, 1),
        (1, 12, 2),
        (2, 17, 3),
        (3, 22, 4),
        (4, 7, 5),
        (5, 12, 6),
        (6, 17, 7),
        (7, 22, 8),
        (8, 7, 9),
        (9, 12, 10),
        (10, 17, 11),
        (11, 22, 12),
        (12, 7, 13),
        (13, 12, 14),
        (14, 17, 15),
        (15, 22, 16),
    ];
    round::<F>(words, t, w, &table)
}

#[tactic(auto, unfolding(crate::specs::Rounds::round2))]
pub fn round_2(words: &[u32; 16], t: &[u32; 64], w: State) -> State
    requires { t.now ≡ sine_parts }
    ensures { result ≡ round2 words.now w }
{
    let table = [
        (1, 5, 17),
        (6, 9, 18),
        (11, 14, 19),
        (0, 20, 20),
        (5, 5, 21),
        (10, 9, 22),
        (15, 14, 23),
        (4, 20, 24),
        (9, 5, 25),
        (14, 9, 26),
        (3, 14, 27),
        (8, 20, 28),
        (13, 5, 29),
        (2, 9, 30),
        (7, 14, 31),
        (12, 20, 32),
    ];
    round::<G>(words, t, w, &table)
}

#[tactic(auto, unfolding(crate::specs::Rounds::round3))]
pub fn round_3(words: &[u32; 16], t: &[u32; 64], w: State) -> State
    requires { t.now ≡ sine_parts }
    ensures { result ≡ round3 words.now w }
{
    let table = [
        (5, 4, 33),
        (8, 11, 34),
        (11, 16, 35),
        (14, 23, 36),
        (1, 4, 37),
        (4, 11, 38),
        (7, 16, 39),
        (10, 23, 40),
        (13, 4, 41),
        (0, 11, 42),
        (3, 16, 43),
        (6, 23, 44),
        (9, 4, 45),
        (12, 11, 46),
        (15, 16, 47),
        (2, 23, 48),
    ];
    round::<H>(words, t, w, &table)
}

#[tactic(auto, unfolding(crate::specs::Rounds::round4))]
pub fn round_4(words: &[u32; 16], t: &[u32; 64], w: State) -> State
    requires { t.now ≡ sine_parts }
    ensures { result ≡ round4 words.now w }
{
    let table = [
        (0, 6, 49),
        (7, 10, 50),
        (14, 15, 51),
        (5, 21, 52),
        (12, 6, 53),
        (3, 10, 54),
        (10, 15, 55),
        (1, 21, 56),
        (8, 6, 57),
        (15, 10, 58),
        (6, 15, 59),
        (13, 21, 60),
        (4, 6, 61),
        (11, 10, 62),
        (2, 15, 63),
        (9, 21, 64),
    ];
    round::<I>(words, t, w, &table)
}
