// The words and numbers of a listing's lines, put into a lent slice without their newline.

#![tactic(auto)]

ghost use Rattle.std.specs.Prelude.{◌++◌, ◌+◌, ◌^◌, ◌≤◌, ◌<◌, length};
ghost use Rattle.buffer.specs.Puts.{PutsText};
ghost use Rattle.digits.specs.Digits.{digits};
ghost use Rattle.refusals.specs.Refusals.{checked};
ghost use Rattle.line_text.specs.LineText.{SmallAnswer, place_text, first_text};

use job::Section;
use refusals::Refusal;

// Words, then a number of up to four digits.
pub fn put_worded(out: &mut [u8], at: usize, words: &[u8], n: u32) -> usize
    requires { (n < 10 ^ 4) × (at + length words.now + 4 ≤ length out.old) }
    ensures { PutsText out.old at (words.now ++ digits n) result out.new }
{
    let number = buffer::put_bytes(&mut *out, at, words);
    digits::put_up_to_four(&mut *out, number, n as u64)
}

// The number of a section, a space, a place in it, a space.
pub fn put_place(out: &mut [u8], section: Section, place: u32) -> usize
    requires { (place ≤ 255) × (24 ≤ length out.old) }
    ensures { PutsText out.old 0 (place_text section place) result out.new }
{
    let first = digits::put_up_to_four(&mut *out, 0, section.number() as u64);
    let second = put_worded(&mut *out, first, b" ", place);
    buffer::put_byte(&mut *out, second, b' ')
}

// The number of entries of a job, or its refusal.
pub fn put_first(out: &mut [u8], answer: Result<u32, Refusal>) -> usize
    requires { SmallAnswer (checked answer) × (24 ≤ length out.old) }
    ensures { PutsText out.old 0 (first_text (checked answer)) result out.new }
{
    match answer {
        Ok(n) => put_worded(out, 0, b"profiles ", n),
        Err(refusal) => put_worded(out, 0, b"job refused ", refusal.number()),
    }
}
