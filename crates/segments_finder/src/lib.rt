// The segments of a buffer, tested in one pass.

#![tactic(auto)]

ghost use Rattle.std.specs.Prelude.{◌≡◌, ◌≤◌, length, replicate};
ghost use Rattle.app2.specs.Joining.{begins};
ghost use Rattle.app2.specs.App2.{max_segments};
ghost use Rattle.segments_finder.specs.Found.{begins_new, Finds};

use app2::{LENGTH_WITHOUT_DATA, MARKER_SIZE};
use buffer::{byte_at, same_bytes};

// Where the fields of a segment stand: the length comes after the marker.
const NAME: usize = 4;

const SEQUENCE: usize = 16;

const COUNT: usize = 17;

// A place for each sequence number, and for 0.
pub const PLACES: usize = 256;

// Whether a segment stands at the front of a buffer.
#[tactic(auto, unfolding(app2::specs::Joining::begins))]
fn begins_segment(buffer: &[u8]) -> bool
    ensures { result ≡ begins buffer.now }
{
    let size = words::read_u16_be(buffer, MARKER_SIZE) as usize;
    LENGTH_WITHOUT_DATA <= size
        && MARKER_SIZE + size <= buffer.len()
        && same_bytes(&buffer[..MARKER_SIZE], b"\xFF\xE2")
        && same_bytes(&buffer[NAME..SEQUENCE], b"ICC_PROFILE\0")
}

// Whether a segment stands there with this count, and with a sequence number from 1 to the count that has no place yet.
#[tactic(auto, unfolding(crate::specs::Found::begins_new, app2::specs::Joining::first))]
fn begins_new(buffer: &[u8], count: usize, places: &[u32]) -> bool
    requires { (count ≤ max_segments) × (length places.now ≡ 256) }
    ensures { result ≡ begins_new count places.now buffer.now }
{
    let sequence = byte_at(buffer, SEQUENCE) as usize;
    begins_segment(buffer)
        && byte_at(buffer, COUNT) as usize == count
        && 1 <= sequence
        && sequence <= count
        && places[sequence] == 0
}

// How many complete segments a buffer is; where the length of each stands, by its sequence number, is stored in the places.
// They are lent: as a part of the answer they are copied, and joining then takes more than 1.3 times the reader's time.
pub fn find_segments(buffer: &[u8], places: &mut [u32]) -> Option<usize>
    requires { places.old ≡ replicate 256 0 }
    ensures { Finds buffer.now places.new result }
{
    let count = byte_at(buffer, COUNT) as usize;
    let mut n = 0usize;
    let mut at = 0usize;
    while at < buffer.len() {
        let here = &buffer[at..];
        if !begins_new(here, count, places) {
            return None;
        }
        let place = at + MARKER_SIZE;
        places[byte_at(here, SEQUENCE) as usize] = place as u32;
        at = place + words::read_u16_be(here, MARKER_SIZE) as usize;
        n += 1;
    }
    if n != count || n < 1 {
        return None;
    }
    Some(count)
}
