// Words in a byte slice, big-endian unless named otherwise. The put functions are for callers that know that the word fits; they answer the place after it.

#![tactic(auto)]

ghost use Rattle.std.specs.Prelude.{◌≡◌, ℕ, cond, ◌+◌, ◌≤◌, ◌<◌, leb, length, drop, get_or};
ghost use Rattle.buffer.specs.Buffer.{put};
ghost use Rattle.buffer.specs.Puts.{Puts};
ghost use Rattle.words.specs.Words.{be16, be32, le32, word16, word32};

use buffer::put_bytes;

// Whether count bytes from place at on lie within length bytes. The sum of the two may not fit a usize.
fn has_room(length: usize, at: usize, count: usize) -> bool
    ensures { result ≡ leb (at + count) length }
{
    at <= length && count <= length - at
}

pub fn put_u16_be(out: &mut [u8], at: usize, value: u16) -> usize
    requires { at + 2 ≤ length out.old }
    ensures { Puts out.old at 2 (be16 value) result out.new }
{
    let bytes = value.to_be_bytes();
    put_bytes(out, at, &bytes)
}

// The least significant byte first.
pub fn put_u32_le(out: &mut [u8], at: usize, value: u32) -> usize
    requires { at + 4 ≤ length out.old }
    ensures { Puts out.old at 4 (le32 value) result out.new }
{
    put_bytes(out, at, &value.to_le_bytes())
}

pub fn put_u32_be(out: &mut [u8], at: usize, value: u32) -> usize
    requires { at + 4 ≤ length out.old }
    ensures { Puts out.old at 4 (be32 value) result out.new }
{
    put_bytes(out, at, &value.to_be_bytes())
}

fn write<const N: usize>(slice: &mut [u8], pos: usize, word: [u8; N]) -> bool
    ensures value { result ≡ leb (pos + N) (length slice.old) }
    ensures slice_after { slice.new ≡ cond (leb (pos + N) (length slice.old)) (put slice.old pos word.entry) slice.old }
{
    let fits = has_room(slice.len(), pos, N);
    if fits {
        put_bytes(slice, pos, &word);
    }
    fits
}

// Writes value at pos and answers true; where it does not fit, answers false and leaves the slice unchanged.
pub fn write_u16_be(slice: &mut [u8], pos: usize, value: u16) -> bool
    ensures value { result ≡ leb (pos + 2) (length slice.old) }
    ensures slice_after { slice.new ≡ cond (leb (pos + 2) (length slice.old)) (put slice.old pos (be16 value)) slice.old }
{
    write(slice, pos, value.to_be_bytes())
}

pub fn write_u32_be(slice: &mut [u8], pos: usize, value: u32) -> bool
    ensures value { result ≡ leb (pos + 4) (length slice.old) }
    ensures slice_after { slice.new ≡ cond (leb (pos + 4) (length slice.old)) (put slice.old pos (be32 value)) slice.old }
{
    write(slice, pos, value.to_be_bytes())
}

// The N bytes from place pos on; bytes past the end are 0. Those that all lie within the slice are copied at once.
fn bytes_at<const N: usize>(slice: &[u8], pos: usize) -> [u8; N]
    ensures { (i : ℕ) → i < N → get_or result i 0 ≡ get_or slice.now (pos + i) 0 }
{
    let mut bytes = [0u8; N];
    if has_room(slice.len(), pos, N) {
        bytes.copy_from_slice(&slice[pos..pos + N]);
    } else if pos < slice.len() {
        put_bytes(&mut bytes, 0, &slice[pos..]);
    }
    bytes
}

// The word at pos; bytes past the end count 0.
pub fn read_u16_be(slice: &[u8], pos: usize) -> u16
    ensures { result ≡ word16 (drop pos slice.now) }
{
    u16::from_be_bytes(bytes_at(slice, pos))
}

pub fn read_u32_be(slice: &[u8], pos: usize) -> u32
    ensures { result ≡ word32 (drop pos slice.now) }
{
    u32::from_be_bytes(bytes_at(slice, pos))
}
