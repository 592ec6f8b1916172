// MD5 of a slice, as RFC 1321 defines it. The sections named below are the RFC's.

#![tactic(auto)]

ghost use Rattle.std.specs.Prelude.{◌≡◌, ◌+◌, ◌*◌, ◌/◌, ◌<◌, ◌≤◌, length, take, drop, replicate, slice_index};
ghost use Rattle.buffer.specs.Buffer.{put};
ghost use Rattle.md5_rounds.specs.Rounds.{sine_parts};
ghost use Rattle.md5_digest.specs.Md5.{words_of, message, after_block, block_at, after_blocks, output, md5};

use md5_rounds::{State, round_1, round_2, round_3, round_4};
use words::put_u32_le;

// T[1 .. 64] (3.4).
const SINEPARTS: [u32; 64] = [
    0xd76aa478, 0xe8c7b756, 0x242070db, 0xc1bdceee, 0xf57c0faf, 0x4787c62a, 0xa8304613, 0xfd469501,
    0x698098d8, 0x8b44f7af, 0xffff5bb1, 0x895cd7be, 0x6b901122, 0xfd987193, 0xa679438e, 0x49b40821,
    0xf61e2562, 0xc040b340, 0x265e5a51, 0xe9b6c7aa, 0xd62f105d, 0x02441453, 0xd8a1e681, 0xe7d3fbc8,
    0x21e1cde6, 0xc33707d6, 0xf4d50d87, 0x455a14ed, 0xa9e3e905, 0xfcefa3f8, 0x676f02d9, 0x8d2a4c8a,
    0xfffa3942, 0x8771f681, 0x6d9d6122, 0xfde5380c, 0xa4beea44, 0x4bdecfa9, 0xf6bb4b60, 0xbebfbc70,
    0x289b7ec6, 0xeaa127fa, 0xd4ef3085, 0x04881d05, 0xd9d4d039, 0xe6db99e5, 0x1fa27cf8, 0xc4ac5665,
    0xf4292244, 0x432aff97, 0xab9423a7, 0xfc93a039, 0x655b59c3, 0x8f0ccc92, 0xffeff47d, 0x85845dd1,
    0x6fa87e4f, 0xfe2ce6e0, 0xa3014314, 0x4e0811a1, 0xf7537e82, 0xbd3af235, 0x2ad7d2bb, 0xeb86d391,
];

// The four rounds, and then the sums with the words that the block began with.
#[tactic(auto, unfolding(crate::specs::Md5::after_block))]
fn block(words: &[u32; 16], t: &[u32; 64], w: State) -> State
    requires { t.now ≡ sine_parts }
    ensures { result ≡ after_block words.now w }
{
    let v = round_1(words, t, w);
    let v = round_2(words, t, v);
    let v = round_3(words, t, v);
    let v = round_4(words, t, v);
    State {
        a: v.a.wrapping_add(w.a),
        b: v.b.wrapping_add(w.b),
        c: v.c.wrapping_add(w.c),
        d: v.d.wrapping_add(w.d),
    }
}

// The word whose low-order byte is byte i.
fn word(data: &[u8], i: usize) -> u32
    requires { i + 4 ≤ length «data».now }
    ensures { result ≡ slice_index (words_of (drop i «data».now)) 0 }
{
    u32::from_le_bytes([data[i], data[i + 1], data[i + 2], data[i + 3]])
}

// The sixteen words of block i.
fn block_words(data: &[u8], i: usize) -> [u32; 16]
    requires { i * 64 + 64 ≤ length «data».now }
    ensures { result ≡ block_at i (words_of «data».now) }
{
    let mut words = [0u32; 16];
    for j in 0..16usize {
        words[j] = word(data, i * 64 + j * 4);
    }
    words
}

// All whole blocks of the data, one after the other. The data is read in place. The buffer is lent and stored after each block: for the compiler that
// may change the table, so that it reads a sine part where it is added and keeps no copies of all 64.
#[tactic(auto, unfolding(crate::specs::Md5::after_blocks))]
fn process(data: &[u8], t: &[u32; 64], buffer: &mut State)
    requires { t.now ≡ sine_parts }
    ensures { buffer.new ≡ after_blocks (length «data».now / 64) (words_of «data».now) buffer.old }
{
    for i in 0..data.len() / 64 {
        let words = block_words(data, i);
        *buffer = block(&words, t, *buffer);
    }
}

// The output (3.5).
fn digest(w: State) -> [u8; 16]
    ensures { result ≡ output w }
{
    let mut sum = [0u8; 16];
    put_u32_le(&mut sum, 0, w.a);
    put_u32_le(&mut sum, 4, w.b);
    put_u32_le(&mut sum, 8, w.c);
    put_u32_le(&mut sum, 12, w.d);
    sum
}

// The bytes of a block, and of the longest tail.
const BLOCK: usize = 64;

const TWO_BLOCKS: usize = 2 * BLOCK;

// The first byte of the padding: a bit 1, then zeros (3.1).
const PADDING: u8 = 0x80;

// Where a padded tail ends that begins with `rest` bytes of data. The first byte of the padding and the eight bytes
// of the length come behind them, so that 56 bytes and more need a second block.
fn tail_end(rest: usize) -> usize
    requires { rest < 64 }
    ensures { result ≡ (rest + 72) / 64 * 64 }
{
    if rest < 56 { BLOCK } else { TWO_BLOCKS }
}

// Lays what follows the whole blocks of the data into a tail of zeros: the data's last bytes, the
// padding (3.1) and the length in bits (3.2). Answers how long that is, one block or two.
fn pad(data: &[u8], tail: &mut [u8]) -> usize
    requires { tail.old ≡ replicate 128 0 }
    ensures { (result ≤ 128) × (take result tail.new ≡ drop (length «data».now / 64 * 64) (message «data».now)) }
{
    let rest = data.len() % 64;
    let whole = data.len() - rest;
    let end = tail_end(rest);
    buffer::put_bytes(tail, 0, &data[whole..]);
    tail[rest] = PADDING;
    let bit_len = (data.len() as u64) << 3;
    put_u32_le(tail, end - 8, (bit_len % 0x1_0000_0000) as u32);
    put_u32_le(tail, end - 4, (bit_len >> 32) as u32);
    end
}

// The MD5 of the data, of any length.
pub fn compute_md5(data: &[u8]) -> [u8; 16]
    ensures { result ≡ md5 «data».now }
{
    let mut buffer = State {
        a: 0x67452301,
        b: 0xefcdab89,
        c: 0x98badcfe,
        d: 0x10325476,
    };
    let t = SINEPARTS;
    process(data, &t, &mut buffer);
    let mut tail = [0u8; TWO_BLOCKS];
    let end = pad(data, &mut tail);
    process(&tail[..end], &t, &mut buffer);
    digest(buffer)
}
