// APP2 segments joined to the file that was put into them.

#![tactic(auto)]

ghost use Rattle.std.specs.Prelude.{◌≡◌, ◌+◌, ◌-◌, ◌≤◌, length, take, drop};
ghost use Rattle.words.specs.Words.{word16};
ghost use Rattle.refusals.specs.Refusals.{number, checked};
ghost use Rattle.app2.specs.App2.{joined_file, Gives};
ghost use Rattle.segments_finder.specs.Found.{Found};
ghost use Rattle.segments_joiner.specs.Data.{data_of, Gathers, RefusesLong};

use app2::LENGTH_WITHOUT_DATA;
use layout::MAX_LENGTH;
use reader_checks::SHORTEST;
use refusals::Refusal;
use segments_finder::{PLACES, find_segments};

// The data of the segment whose length stands at a place.
fn data_at(buffer: &[u8], place: usize) -> &[u8]
    requires { (16 ≤ word16 (drop place buffer.now)) × (place + word16 (drop place buffer.now) ≤ length buffer.now) }
    ensures { result.now ≡ take (word16 (drop place buffer.now) - 16) (drop (place + 16) buffer.now) }
{
    let end = place + words::read_u16_be(buffer, place) as usize;
    &buffer[place + LENGTH_WITHOUT_DATA..end]
}

// The data in order of sequence number, as much of it as the output holds; answers the length of all.
fn gather(buffer: &[u8], places: &[u32; PLACES], count: usize, out: &mut [u8]) -> usize
    requires { Found buffer.now places.now count }
    ensures { Gathers (data_of buffer.now) out.old out.new result }
{
    let mut total = 0usize;
    let mut at = 0usize;
    for i in 1..count + 1 {
        let data = data_at(buffer, places[i] as usize);
        let room = (out.len() - at).min(data.len());
        at = buffer::put_bytes(out, at, &data[..room]);
        total += data.len();
    }
    total
}

// The reader's refusal of n bytes that are more than any file has, by the first of them. Its checks up to 24 look at the header alone, and 25 is next: so
// a header by itself, with its own length in the size field, is refused by the same number.
fn long_refusal(front: &[u8], n: usize) -> Refusal
    requires { 132 ≤ length front.now }
    ensures { RefusesLong front.now n (number result) }
{
    if words::read_u32_be(front, 0) as usize != n {
        return Refusal::WrongSize;
    }
    let mut head = [0u8; SHORTEST];
    words::put_u32_be(&mut head, 0, SHORTEST as u32);
    buffer::put_bytes(&mut head, 4, &front[4..SHORTEST]);
    let Err(refusal) = reader::read(&head) else {
        unreachable!();
    };
    refusal
}

// Joins the segments that a buffer is, and reads what they hold; the file is put to the front of the output. On a refusal no byte of the output changes.
pub fn join_segments(segments: &[u8], out: &mut [u8]) -> Result<u32, Refusal>
    ensures { Gives (joined_file segments.now (length out.old)) out.old out.new (checked result) }
{
    let mut places = [0u32; PLACES];
    let count = find_segments(segments, &mut places).ok_or(Refusal::WrongSegments)?;
    let mut whole = [0u8; MAX_LENGTH];
    let n = gather(segments, &places, count, &mut whole);
    if out.len() < n {
        return Err(Refusal::SegmentsTooShort);
    }
    if n > MAX_LENGTH {
        return Err(long_refusal(&whole, n));
    }
    reader::read(&whole[..n])?;
    buffer::put_bytes(out, 0, &whole[..n]);
    Ok(n as u32)
}
