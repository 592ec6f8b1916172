// The tags of each kind of profile, in the order of its table. What differs by kind is said here.

#![tactic(auto, unfolding(crate::specs::Tags::tags, crate::specs::Tags::listed))]

ghost use Rattle.std.specs.Prelude.{◌≡◌, ◌≤◌, true, false};
ghost use Rattle.tags.specs.Tags as Listing;
ghost use Rattle.profile.specs.Plan.{max_letters};
ghost use Rattle.profile.specs.Shape as Shapes;

use profile::{GAMMA_SIZE, Kind, Shape};

// The most tags of a profile.
pub const MAX_TAGS: usize = 11;

// The bytes of each element, padding left out. The text of `cprt` is `CC0`.
const CPRT_SIZE: u32 = 34;

const XYZ_SIZE: u32 = 20;

const CHAD_SIZE: u32 = 44;

const CICP_SIZE: u32 = 12;

const CURVE_SIZE: u32 = 32;

const A2B0_SIZE: u32 = 292;

const B2A0_SIZE: u32 = 80;

// A tag and the size of its element. A shared one names the element of the tag before it.
#[derive(Clone, Copy, Debug, PartialEq, Eq)]
pub struct Tag {
    pub signature: [u8; 4],
    pub size: u32,
    pub shared: bool,
}

// Tags in fixed memory: the first `count` are tags; the others are unused.
#[derive(Clone, Copy, Debug, PartialEq, Eq)]
pub struct Tags {
    pub count: usize,
    pub tags: [Tag; MAX_TAGS],
}

const UNUSED: Tag = Tag {
    signature: [0; 4],
    size: 0,
    shared: false,
};

// A tag with an element of its own.
fn own(signature: [u8; 4], size: u32) -> Tag
    ensures { result ≡ Listing.first size signature }
{
    Tag {
        signature,
        size,
        shared: false,
    }
}

// A tag that names the element of the tag before it.
fn shared(signature: [u8; 4], size: u32) -> Tag
    ensures { result ≡ Listing.other size signature }
{
    Tag {
        signature,
        size,
        shared: true,
    }
}

// A tag with a text.
fn text(signature: [u8; 4], letters: usize) -> Tag
    requires { letters ≤ max_letters }
    ensures { result ≡ Listing.first (Shapes.mluc_size letters) signature }
{
    own(signature, elements::mluc_size(letters) as u32)
}

fn curve_size(gamma: bool) -> u32
    ensures { result ≡ Shapes.curve_size «gamma» }
{
    if gamma { GAMMA_SIZE } else { CURVE_SIZE }
}

// Of gray whose white is its own.
pub fn own_white_gray_tags(shape: Shape) -> [Tag; 4]
    requires { shape.letters ≤ max_letters }
    ensures { result ≡ Listing.tags (Listing.gray_slots false shape) }
{
    [
        text(*b"desc", shape.letters),
        own(*b"cprt", CPRT_SIZE),
        own(*b"wtpt", XYZ_SIZE),
        own(*b"kTRC", curve_size(shape.gamma)),
    ]
}

// Of gray whose white is adapted to D50: `chad` stands only there.
pub fn adapted_gray_tags(shape: Shape) -> [Tag; 5]
    requires { shape.letters ≤ max_letters }
    ensures { result ≡ Listing.tags (Listing.gray_slots true shape) }
{
    let [desc, cprt, wtpt, curve] = own_white_gray_tags(shape);
    [desc, cprt, wtpt, own(*b"chad", CHAD_SIZE), curve]
}

// Of RGB without `cicp`. The three curves are one element.
pub fn plain_rgb_tags(shape: Shape) -> [Tag; 10]
    requires { shape.letters ≤ max_letters }
    ensures { result ≡ Listing.tags (Listing.rgb_slots false shape) }
{
    let size = curve_size(shape.gamma);
    [
        text(*b"desc", shape.letters),
        own(*b"cprt", CPRT_SIZE),
        own(*b"wtpt", XYZ_SIZE),
        own(*b"chad", CHAD_SIZE),
        own(*b"rXYZ", XYZ_SIZE),
        own(*b"gXYZ", XYZ_SIZE),
        own(*b"bXYZ", XYZ_SIZE),
        own(*b"rTRC", size),
        shared(*b"gTRC", size),
        shared(*b"bTRC", size),
    ]
}

pub fn cicp_rgb_tags(shape: Shape) -> [Tag; MAX_TAGS]
    requires { shape.letters ≤ max_letters }
    ensures { result ≡ Listing.tags (Listing.rgb_slots true shape) }
{
    let [desc, cprt, wtpt, chad, r, g, b, red, green, blue] = plain_rgb_tags(shape);
    [
        desc,
        cprt,
        wtpt,
        chad,
        own(*b"cicp", CICP_SIZE),
        r,
        g,
        b,
        red,
        green,
        blue,
    ]
}

// Of gray, and of RGB, as the shape has it. `tag_table` calls each list by itself, so that the compiler works out what is constant in it.
pub fn gray_tags(shape: Shape) -> Tags
    requires { shape.letters ≤ max_letters }
    ensures { result ≡ Listing.listed (Listing.tags (Shapes.slots_for Kind.Gray shape)) }
{
    let none = UNUSED;
    if shape.adapted {
        let [a, b, c, d, e] = adapted_gray_tags(shape);
        return Tags {
            count: 5,
            tags: [a, b, c, d, e, none, none, none, none, none, none],
        };
    }
    let [a, b, c, d] = own_white_gray_tags(shape);
    Tags {
        count: 4,
        tags: [a, b, c, d, none, none, none, none, none, none, none],
    }
}

pub fn rgb_tags(shape: Shape) -> Tags
    requires { shape.letters ≤ max_letters }
    ensures { result ≡ Listing.listed (Listing.tags (Shapes.slots_for Kind.Rgb shape)) }
{
    if shape.cicp {
        return Tags {
            count: MAX_TAGS,
            tags: cicp_rgb_tags(shape),
        };
    }
    let [a, b, c, d, e, f, g, h, i, j] = plain_rgb_tags(shape);
    Tags {
        count: 10,
        tags: [a, b, c, d, e, f, g, h, i, j, UNUSED],
    }
}

pub fn xyb_tags() -> [Tag; 6]
    ensures { result ≡ Listing.tags Listing.xyb_slots }
{
    [
        text(*b"desc", profile::XYB_LETTERS),
        own(*b"cprt", CPRT_SIZE),
        own(*b"wtpt", XYZ_SIZE),
        own(*b"chad", CHAD_SIZE),
        own(*b"A2B0", A2B0_SIZE),
        own(*b"B2A0", B2A0_SIZE),
    ]
}
