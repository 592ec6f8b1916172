// The numbers and the text of the one plan that a file can have, each from the element that the file's own table names.

#![tactic(auto)]

ghost use Rattle.std.specs.Prelude.{◌≡◌, ◌+◌, ◌*◌, ◌≤◌, length, take, drop};
ghost use Rattle.buffer.specs.Buffer.{put};
ghost use Rattle.buffer.specs.Puts.{PutsText};
ghost use Rattle.profile.specs.Plan.{max_letters};
ghost use Rattle.profile.specs.Numbers.{content_of, numbers_of, text_of};
ghost use Rattle.reader_spec.specs.Table as Table;
ghost use Rattle.reader_spec.specs.PlanIn as PlanIn;
ghost use Rattle.reader_spec.specs.Steps.{Tabled};

use fields::{DESC_LINE, gray_curve_line, red_line};
use header::{MAKER, MODEL};
use numbers::i32_from_bits;
use profile::{
    BT709_GAMMA, Content, Curve, CurveName, GrayWhite, Kind, LINEAR_GAMMA, MLUC_TEXT, Numbers,
    SRGB_GAMMA, Shape,
};
use table_lines::line_at;
use words::read_u32_be;

// The lines of the elements that the reader goes by, beside those of text, gray's curve and RGB's columns.
const WTPT_LINE: usize = 2;

const CHAD_LINE: usize = 3;

const CICP_LINE: usize = 4;

// Where the numbers of an `XYZ ` or `sf32` element and those of a curve begin, and the byte of the primaries value of `cicp`.
const NUMBERS: usize = 8;

const PARAMETERS: usize = 12;

const PRIMARIES: usize = 8;

// Where the element of a line starts.
fn offset_at(file: &[u8], line: usize) -> u32
    ensures { result ≡ (Table.line_in file.now line).offset }
{
    line_at(file, line).offset
}

fn number_at(file: &[u8], at: usize) -> i32
    ensures { result ≡ PlanIn.number_in (drop at file.now) }
{
    i32_from_bits(read_u32_be(file, at))
}

// ---- the curve and `cicp`

// The first numbers of named curves.
const SRGB_FIRST: u32 = SRGB_GAMMA as u32;

const BT709_FIRST: u32 = BT709_GAMMA as u32;

const LINEAR_FIRST: u32 = LINEAR_GAMMA as u32;

// A named curve by its first number.
#[tactic(auto, unfolding(reader_spec::specs::PlanIn::name_by))]
fn name_by(first: u32) -> CurveName
    ensures { result ≡ PlanIn.name_by first }
{
    match first {
        SRGB_FIRST => CurveName::SRGB,
        BT709_FIRST => CurveName::BT709,
        LINEAR_FIRST => CurveName::Linear,
        _ => CurveName::DCI,
    }
}

// The curve of the element that a line names, a gamma or a named one.
fn curve_in(file: &[u8], line: usize, gamma: bool) -> Curve
    ensures { result ≡ PlanIn.curve_in gamma (PlanIn.element_in file.now line) }
{
    let at = offset_at(file, line) as usize + PARAMETERS;
    if gamma {
        return Curve::Gamma(number_at(file, at));
    }
    Curve::Named(name_by(read_u32_be(file, at)))
}

fn cicp_in(file: &[u8], cicp: bool) -> Option<u8>
    ensures { result ≡ PlanIn.cicp_in cicp (PlanIn.element_in file.now 4) }
{
    if cicp {
        let at = offset_at(file, CICP_LINE) as usize + PRIMARIES;
        return Some(buffer::byte_at(file, at));
    }
    None
}

// ---- `chad`, columns and white

// The N numbers of an `XYZ ` or `sf32` element.
fn numbers_at<const N: usize>(file: &[u8], line: usize) -> [i32; N]
    requires { N ≤ 9 }
    ensures { result ≡ PlanIn.numbers_in N (PlanIn.element_in file.now line) }
{
    let at = offset_at(file, line) as usize + NUMBERS;
    let mut numbers = [0i32; N];
    for i in 0..N {
        numbers[i] = number_at(file, at + 4 * i);
    }
    numbers
}

// The numbers of the three columns, the lines of which follow one another.
fn columns_in(file: &[u8], red_line: usize) -> [i32; 9]
    requires { red_line ≤ 5 }
    ensures { result ≡ PlanIn.columns_in (PlanIn.element_in file.now) red_line }
{
    let [red_x, red_y, red_z] = numbers_at::<3>(file, red_line);
    let [green_x, green_y, green_z] = numbers_at::<3>(file, red_line + 1);
    let [blue_x, blue_y, blue_z] = numbers_at::<3>(file, red_line + 2);
    [
        red_x, red_y, red_z, green_x, green_y, green_z, blue_x, blue_y, blue_z,
    ]
}

// The white of a gray plan: X and Z of its own or, where it is adapted, `chad`.
fn white_in(file: &[u8], adapted: bool) -> GrayWhite
    ensures { result ≡ PlanIn.white_in adapted (PlanIn.element_in file.now) }
{
    if adapted {
        return GrayWhite::Adapted(numbers_at(file, CHAD_LINE));
    }
    let [x, _, z] = numbers_at::<3>(file, WTPT_LINE);
    GrayWhite::Unadapted { x, z }
}

// ---- the plan

#[tactic(auto, unfolding(reader_spec::specs::PlanIn::content_from))]
fn content_in(file: &[u8], shape: Shape) -> Content
    ensures { result ≡ content_of (PlanIn.content_from shape.kind shape (PlanIn.element_in file.now)) }
{
    match shape.kind {
        Kind::Gray => Content::Gray {
            curve: curve_in(file, gray_curve_line(shape.adapted), shape.gamma),
            white: white_in(file, shape.adapted),
        },
        Kind::Rgb => {
            let red = red_line(shape.cicp);
            Content::Rgb {
                curve: curve_in(file, red + 3, shape.gamma),
                cicp: cicp_in(file, shape.cicp),
                chad: numbers_at(file, CHAD_LINE),
                columns: columns_in(file, red),
            }
        }
        Kind::Xyb => Content::Xyb,
    }
}

// The numbers of the one plan that a file of this shape can have.
pub fn numbers_in(file: &[u8], shape: Shape, intent: u32) -> Numbers
    requires { (shape ≡ PlanIn.shape_in file.now) × (intent ≡ (Table.varying_of file.now).intent) }
    ensures { result ≡ numbers_of (PlanIn.plan_in file.now) }
{
    Numbers {
        intent,
        maker: read_u32_be(file, MAKER),
        model: read_u32_be(file, MODEL),
        content: content_in(file, shape),
    }
}

// The letters of a shape's free text.
fn free_letters(shape: Shape) -> usize
    ensures { result ≡ PlanIn.free_letters shape.kind shape.letters }
{
    match shape.kind {
        Kind::Gray | Kind::Rgb => shape.letters,
        Kind::Xyb => 0,
    }
}

// The letters of UTF-16BE from a place on, to the front of the text.
fn read_letters(file: &[u8], at: usize, letters: usize, text: &mut [u8])
    requires { (at + 2 * letters ≤ length file.now) × (letters ≤ length text.old) }
    ensures { text.new ≡ put text.old 0 (PlanIn.low_bytes (take (2 * letters) (drop at file.now))) }
{
    for i in 0..letters {
        text[i] = file[at + 2 * i + 1];
    }
}

// The text of the one plan that a file of this shape can have, to the front of a text. Answers its length. The text is lent: as
// the answer it is copied twice more, and reading takes more stack than include/merqyduk.h states.
pub fn text_in(file: &[u8], shape: Shape, text: &mut [u8]) -> usize
    requires { Tabled shape file.now × (max_letters ≤ length text.old) }
    ensures { PutsText text.old 0 (text_of (PlanIn.plan_in file.now)) result text.new }
{
    let letters = free_letters(shape);
    let at = offset_at(file, DESC_LINE) as usize + MLUC_TEXT;
    read_letters(file, at, letters, text);
    letters
}
