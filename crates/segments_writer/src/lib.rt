// A file that the reader accepts, put into APP2 segments.

#![tactic(auto)]

ghost use Rattle.std.specs.Prelude.{◌≡◌, ◌+◌, ◌-◌, ◌*◌, ◌/◌, ◌^◌, ◌≤◌, ◌<◌, length};
ghost use Rattle.buffer.specs.Puts.{Puts, PutsText};
ghost use Rattle.refusals.specs.Refusals.{checked};
ghost use Rattle.app2.specs.Segments.{front, segment_bytes, bytes, cut, segments};
ghost use Rattle.app2.specs.App2.{max_data, max_segments, written_segments, Gives};

use app2::{FRONT_SIZE, LENGTH_WITHOUT_DATA, MAX_DATA, MAX_SEGMENTS};
use refusals::Refusal;

// What stands in front of n bytes of data.
fn put_front(out: &mut [u8], at: usize, n: usize, sequence: u8, count: u8) -> usize
    requires { (at + 18 ≤ length out.old) × (n ≤ max_data) }
    ensures { Puts out.old at 18 (front n sequence count) result out.new }
{
    let at = buffer::put_bytes(out, at, b"\xFF\xE2");
    let at = words::put_u16_be(out, at, (LENGTH_WITHOUT_DATA + n) as u16);
    let at = buffer::put_bytes(out, at, b"ICC_PROFILE\0");
    let at = buffer::put_byte(out, at, sequence);
    buffer::put_byte(out, at, count)
}

fn put_segment(out: &mut [u8], at: usize, sequence: u8, count: u8, chunk: &[u8]) -> usize
    requires { (at + (18 + length chunk.now) ≤ length out.old) × (length chunk.now ≤ max_data) }
    ensures { PutsText out.old at (segment_bytes (record { sequence = sequence; count = count; chunk = chunk.now })) result out.new }
{
    let at = put_front(out, at, chunk.len(), sequence, count);
    buffer::put_bytes(out, at, chunk)
}

// The segments of a file, of which there are `count`, from the output's first byte on.
fn put_segments(out: &mut [u8], file: &[u8], size: usize, count: usize) -> usize
    requires { (1 ≤ size) × (size ≤ max_data) × (count ≡ length (cut size file.now)) × (count ≤ max_segments) × (length (bytes (segments size file.now)) ≤ length out.old) }
    ensures { PutsText out.old 0 (bytes (segments size file.now)) result out.new }
{
    let mut at = 0usize;
    for (i, chunk) in file.chunks(size).enumerate() {
        at = put_segment(out, at, (i + 1) as u8, count as u8, chunk);
    }
    at
}

// How many segments hold n bytes: a quotient by its eight binary digits, since no code of
// libmerqyduk divides integers (divisions/machine_code.sh).
fn segments_for(n: usize, size: usize) -> usize
    requires { (1 ≤ size) × (size ≤ max_data) × (n ≤ max_segments * size) }
    ensures { result ≡ (n + (size - 1)) / size }
{
    let mut left = n + (size - 1);
    let mut count = 0;
    for digit in [128, 64, 32, 16, 8, 4, 2, 1] {
        if digit * size <= left {
            left -= digit * size;
            count += digit;
        }
    }
    count
}

// Puts a file into segments of `size` bytes of data, to the front of the output. On a refusal no byte of the output changes.
pub fn write_segments(file: &[u8], size: usize, out: &mut [u8]) -> Result<u32, Refusal>
    ensures { Gives (written_segments file.now size (length out.old)) out.old out.new (checked result) }
{
    reader::read(file)?;
    if size < 1 || size > MAX_DATA || file.len() > MAX_SEGMENTS * size {
        return Err(Refusal::WrongDataSize);
    }
    let count = segments_for(file.len(), size);
    if out.len() < file.len() + FRONT_SIZE * count {
        return Err(Refusal::SegmentsTooShort);
    }
    Ok(put_segments(out, file, size, count) as u32)
}
