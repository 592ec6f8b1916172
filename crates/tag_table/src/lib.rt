// The tag table (ICC.1:2022, 7.3): the number of tags, and a signature, an offset and a size for each.

#![tactic(auto)]

ghost use Rattle.std.specs.Prelude.{◌≡◌, ◌+◌, ◌*◌, ◌≤◌};
ghost use Rattle.std.proofs.Math.ListN as ListN;
ghost use Rattle.buffer.specs.Puts.{Puts};
ghost use Rattle.profile.specs.Elements as Elements;
ghost use Rattle.profile.specs.Elements.{header_size, count_size, line_size, line_start};
ghost use Rattle.profile.specs.Plan.{max_letters};
ghost use Rattle.profile.specs.Shape.{slots_of, max_length};
ghost use Rattle.tag_table.specs.Places as Places;

use elements::write_icc_tag;
use profile::{Kind, Shape};
use tags::{Tag, adapted_gray_tags, cicp_rgb_tags, own_white_gray_tags, plain_rgb_tags, xyb_tags};

pub const HEADER_SIZE: usize = 128;

// The bytes of the number of tags.
const COUNT_SIZE: usize = 4;

pub const ENTRY_SIZE: usize = 12;

// The most bytes of a profile.
pub const MAX_LENGTH: usize = 1240;

// Where the element of a tag starts, and where it ends with its padding.
#[derive(Clone, Copy, Debug, PartialEq, Eq)]
struct Place {
    offset: u32,
    end: u32,
}

// The place of a tag's element, from that of the tag before it.
#[tactic(auto, unfolding(crate::specs::Places::placed))]
fn placed(before: Place, tag: Tag) -> Place
    requires { (Places.placed before tag).end ≤ max_length }
    ensures { result ≡ Places.placed before tag }
{
    if tag.shared {
        return before;
    }
    let padding = elements::padding(tag.size as usize) as u32;
    Place {
        offset: before.end,
        end: before.end + (tag.size + padding),
    }
}

// Before the first element, in a profile with so many tags.
fn begin(count: usize) -> Place
    requires { line_start count ≤ max_length }
    ensures { result ≡ Places.begin count }
{
    let at = (HEADER_SIZE + COUNT_SIZE + ENTRY_SIZE * count) as u32;
    Place {
        offset: at,
        end: at,
    }
}

// Where the last element of the tags ends.
fn end_of(tags: &[Tag]) -> usize
    requires { Places.Fits tags.now }
    ensures { result ≡ Places.end_of tags.now }
{
    let mut place = begin(tags.len());
    for tag in tags {
        place = placed(place, *tag);
    }
    place.end as usize
}

// How many bytes the layout of a plan of this shape has: where its last element ends. The walk is called for each list by itself, here and in
// `put_table`: the compiler then works out beforehand what is constant in a list, which it does not where one call takes any list.
pub fn length(shape: Shape) -> usize
    requires { shape.letters ≤ max_letters }
    ensures { result ≡ Elements.file_length (slots_of shape) }
{
    match shape.kind {
        Kind::Gray if shape.adapted => end_of(&adapted_gray_tags(shape)),
        Kind::Gray => end_of(&own_white_gray_tags(shape)),
        Kind::Rgb if shape.cicp => end_of(&cicp_rgb_tags(shape)),
        Kind::Rgb => end_of(&plain_rgb_tags(shape)),
        Kind::Xyb => end_of(&xyb_tags()),
    }
}

fn put_tag(out: &mut [u8], at: usize, tag: Tag, offset: u32) -> usize
    requires { at + 12 ≤ ListN.length out.old }
    ensures { Puts out.old at 12 (Elements.entry_bytes (Elements.entry offset tag.size tag.signature)) result out.new }
{
    let at = write_icc_tag(out, at, tag.signature);
    let at = words::put_u32_be(out, at, offset);
    words::put_u32_be(out, at, tag.size)
}

// The table of the tags: their number and a line for each. Answers where the elements start.
fn put_lines(out: &mut [u8], tags: &[Tag]) -> usize
    requires { Places.Fits tags.now × (line_start (ListN.length tags.now) ≤ ListN.length out.old) }
    ensures { Puts out.old header_size (count_size + line_size * ListN.length tags.now) (Places.table_of tags.now) result out.new }
{
    let mut place = begin(tags.len());
    let mut at = words::put_u32_be(out, HEADER_SIZE, tags.len() as u32);
    for tag in tags {
        place = placed(place, *tag);
        at = put_tag(out, at, *tag, place.offset);
    }
    at
}

// The tag table of a shape. Answers where the elements start.
pub fn put_table(out: &mut [u8], shape: Shape) -> usize
    requires { (shape.letters ≤ max_letters) × (Elements.start (slots_of shape) ≤ ListN.length out.old) }
    ensures { Puts out.old header_size (count_size + line_size * Elements.tag_count (slots_of shape)) (Elements.table (slots_of shape)) result out.new }
{
    match shape.kind {
        Kind::Gray if shape.adapted => put_lines(out, &adapted_gray_tags(shape)),
        Kind::Gray => put_lines(out, &own_white_gray_tags(shape)),
        Kind::Rgb if shape.cicp => put_lines(out, &cicp_rgb_tags(shape)),
        Kind::Rgb => put_lines(out, &plain_rgb_tags(shape)),
        Kind::Xyb => put_lines(out, &xyb_tags()),
    }
}
