// Profiles in APP2 segments of a JPEG file: the numbers that both the call that writes segments and the call that joins them know. What the calls must
// answer is in specs/, with its theorems; `segments_writer` and `segments_joiner` have the calls.

#![tactic(auto)]

// What the length of a segment counts beside its data: itself, the name, the sequence number and the count. The marker stands before it.
pub const LENGTH_WITHOUT_DATA: usize = 16;

pub const MARKER_SIZE: usize = 2;

// The bytes of a segment in front of its data.
pub const FRONT_SIZE: usize = MARKER_SIZE + LENGTH_WITHOUT_DATA;

// The most data of a segment, and the most segments of a profile.
pub const MAX_DATA: usize = 65519;

pub const MAX_SEGMENTS: usize = 255;
