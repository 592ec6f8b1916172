// The fields of a file's header, and the shape that they and the lines of its tag table tell.

#![tactic(auto)]

ghost use Rattle.std.specs.Prelude.{◌≡◌, true, ◌&&◌, ◌+◌, ◌≤◌, eqb, length, take, drop};
ghost use Rattle.buffer.specs.Bytes.{same};
ghost use Rattle.profile.specs.Elements.{header_size, count_size};
ghost use Rattle.profile.specs.Shape.{curve_size};
ghost use Rattle.reader_spec.specs.Table as Table;
ghost use Rattle.reader_spec.specs.PlanIn as PlanIn;

use profile::{GAMMA_SIZE, Kind, MLUC_TEXT, Shape};
use table_lines::{line_at, tag_count};
use tags::MAX_TAGS;

// ---- the header

// Where the class stands, and the data color space.
const CLASS: usize = 12;

const SPACE: usize = 16;

// Whether class and space are these.
fn is_of(file: &[u8], class: [u8; 4], space: [u8; 4]) -> bool
    requires { header_size + count_size ≤ length file.now }
    ensures { result ≡ (same (take 4 (drop 12 file.now)) class && same (take 4 (drop 16 file.now)) space) }
{
    buffer::same_bytes(&file[CLASS..CLASS + 4], &class)
        && buffer::same_bytes(&file[SPACE..SPACE + 4], &space)
}

// The kind that class and space tell. A pair that is not listed is held against RGB's header, and refused.
#[tactic(auto, unfolding(reader_spec::specs::PlanIn::kind_from))]
pub fn kind_of(file: &[u8]) -> Kind
    requires { header_size + count_size ≤ length file.now }
    ensures { result ≡ PlanIn.kind_from file.now }
{
    if is_of(file, *b"scnr", *b"RGB ") {
        return Kind::Xyb;
    }
    if is_of(file, *b"mntr", *b"GRAY") {
        return Kind::Gray;
    }
    Kind::Rgb
}

// ---- the shape

// The line of the text, which every kind has.
pub const DESC_LINE: usize = 0;

// The number of tags of an RGB profile with `cicp`, which has the most, and of a gray one whose white is adapted to D50.
const CICP_TAGS: u32 = MAX_TAGS as u32;

const ADAPTED_TAGS: u32 = 5;

// The line of gray's curve.
pub fn gray_curve_line(adapted: bool) -> usize
    ensures { result ≡ PlanIn.gray_curve_line adapted }
{
    if adapted { 4 } else { 3 }
}

// The line of RGB's red column; those of the green and the blue one and of the curve follow.
pub fn red_line(cicp: bool) -> usize
    ensures { (result ≡ PlanIn.red_line_of cicp) × (result ≤ 5) }
{
    if cicp { 5 } else { 4 }
}

// The letters of a text whose `desc` has so many bytes.
fn letters_for(size: u32) -> usize
    ensures { result ≡ PlanIn.letters_for size }
{
    (size as usize).saturating_sub(MLUC_TEXT) / 2
}

// A shape by the sizes of the elements of text and curve.
fn shape_by_sizes(file: &[u8], kind: Kind, curve_line: usize, cicp: bool, adapted: bool) -> Shape
    ensures { result ≡ record { kind = kind; letters = PlanIn.letters_for (Table.line_in file.now 0).size; gamma = eqb (Table.line_in file.now curve_line).size (curve_size true); cicp = cicp; adapted = adapted } }
{
    let text = line_at(file, DESC_LINE);
    let curve = line_at(file, curve_line);
    Shape {
        kind,
        letters: letters_for(text.size),
        gamma: curve.size == GAMMA_SIZE,
        cicp,
        adapted,
    }
}

// The shape that the tag table of a file of a kind can only have.
pub fn shape_in(file: &[u8], kind: Kind) -> Shape
    ensures { result ≡ PlanIn.shape_from kind (Table.entries_of file.now) }
{
    match kind {
        Kind::Gray => {
            let adapted = tag_count(file) == ADAPTED_TAGS;
            shape_by_sizes(file, Kind::Gray, gray_curve_line(adapted), false, adapted)
        }
        Kind::Rgb => {
            let cicp = tag_count(file) == CICP_TAGS;
            shape_by_sizes(file, Kind::Rgb, red_line(cicp) + 3, cicp, false)
        }
        Kind::Xyb => Shape {
            kind: Kind::Xyb,
            letters: profile::XYB_LETTERS,
            gamma: false,
            cicp: false,
            adapted: false,
        },
    }
}
