// Bytes of a slice: read one by one, compared, and put into a slice that the caller lends. The callers of the put functions have checked that
// there is room; each answers the place after what it put.

#![tactic(auto)]

ghost use Rattle.std.specs.Prelude.{◌≡◌, ◌&&◌, ◌∷◌, [], ◌+◌, ◌≤◌, eqb, leb, length, get_or};
ghost use Rattle.buffer.specs.Ascii.{is_ascii};
ghost use Rattle.buffer.specs.Bytes.{zeros, same};
ghost use Rattle.buffer.specs.Puts.{Puts};

// A text in fixed memory: the first `len` bytes; zeros after it.
#[derive(Clone, Copy, Debug, PartialEq, Eq)]
pub struct Text<const N: usize> {
    pub bytes: [u8; N],
    pub len: usize,
}

// The byte at a place, and 0 past the end.
pub fn byte_at(bytes: &[u8], at: usize) -> u8
    ensures { result ≡ get_or bytes.now at 0 }
{
    if at < bytes.len() { bytes[at] } else { 0 }
}

fn and_equal(all: bool, x: u8, y: u8) -> bool
    ensures { result ≡ (all && eqb x y) }
{
    if x == y { all } else { false }
}

// Whether two slices hold the same bytes. It goes on past a difference, so that many bytes are compared at once.
pub fn same_bytes(a: &[u8], b: &[u8]) -> bool
    ensures { result ≡ same a.now b.now }
{
    if a.len() != b.len() {
        return false;
    }
    let mut all = true;
    for i in 0..a.len() {
        all = and_equal(all, a[i], b[i]);
    }
    all
}

fn and_ascii(all: bool, c: u8) -> bool
    ensures { result ≡ (all && leb c 127) }
{
    if c <= 127 { all } else { false }
}

// Whether no letter is above 127.
pub fn is_ascii(text: &[u8]) -> bool
    ensures { result ≡ is_ascii text.now }
{
    let mut all = true;
    for i in 0..text.len() {
        all = and_ascii(all, text[i]);
    }
    all
}

pub fn put_byte(out: &mut [u8], at: usize, b: u8) -> usize
    requires { at + 1 ≤ length out.old }
    ensures { Puts out.old at 1 (b ∷ []) result out.new }
{
    out[at] = b;
    at + 1
}

pub fn put_bytes(out: &mut [u8], at: usize, bytes: &[u8]) -> usize
    requires { at + length bytes.now ≤ length out.old }
    ensures { Puts out.old at (length bytes.now) bytes.now result out.new }
{
    for i in 0..bytes.len() {
        out[at + i] = bytes[i];
    }
    at + bytes.len()
}

pub fn put_zeros(out: &mut [u8], at: usize, count: usize) -> usize
    requires { at + count ≤ length out.old }
    ensures { Puts out.old at count (zeros count) result out.new }
{
    for i in 0..count {
        out[at + i] = 0;
    }
    at + count
}
