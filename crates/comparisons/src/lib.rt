// The parts of a file compared with those that are laid out for it: the header of a kind, the tag table of a shape, the elements and the id of a plan.

#![tactic(auto)]

ghost use Rattle.std.specs.Prelude.{◌≡◌, true, ◌+◌, ◌*◌, ◌≤◌, length, take, drop};
ghost use Rattle.words.specs.Words.{be32};
ghost use Rattle.buffer.specs.Buffer.{put};
ghost use Rattle.buffer.specs.Bytes.{zeros, same};
ghost use Rattle.profile.specs.Elements.{header_size, count_size, line_size, start, tag_count, table, file_length};
ghost use Rattle.profile.specs.Plan.{max_letters};
ghost use Rattle.profile.specs.Layout.{intent_at, id_at, id_size, header, layout};
ghost use Rattle.profile.specs.Numbers.{plan_of};
ghost use Rattle.profile.specs.Shape as Shapes;
ghost use Rattle.reader_spec.specs.Table.{varying_of};
ghost use Rattle.reader_spec.specs.Decide as Decide;
ghost use Rattle.reader_spec.specs.Steps.{Candidate};
ghost use Rattle.reader_spec.specs.Tests as Tests;

use header::{ID, INTENT, MAKER, MODEL, create_icc_header};
use layout::MAX_LENGTH;
use profile::{Kind, Numbers, Shape};
use tag_table::{ENTRY_SIZE, HEADER_SIZE};
use tags::MAX_TAGS;

// The bytes of the id, and where it ends.
const ID_SIZE: usize = 16;

const ID_END: usize = ID + ID_SIZE;

// Where the longest tag table ends.
const MAX_TABLE_END: usize = HEADER_SIZE + 4 + MAX_TAGS * ENTRY_SIZE;

// Whether the header is that of a kind, with the size, the maker, the model, the intent and the id that the file states.
pub fn header_is(file: &[u8], kind: Kind, intent: u32) -> bool
    requires { (header_size + count_size ≤ length file.now) × ((varying_of file.now).size ≡ length file.now) × (intent ≡ (varying_of file.now).intent) }
    ensures { result ≡ same (take header_size file.now) (header kind (varying_of file.now)) }
{
    let maker = words::read_u32_be(file, MAKER);
    let model = words::read_u32_be(file, MODEL);
    let mut laid = [0u8; HEADER_SIZE];
    create_icc_header(&mut laid, file.len() as u32, kind, maker, model);
    words::put_u32_be(&mut laid, INTENT, intent);
    buffer::put_bytes(&mut laid, ID, &file[ID..ID_END]);
    buffer::same_bytes(&file[..HEADER_SIZE], &laid)
}

// Whether the tag table is that of a shape.
fn same_table(file: &[u8], shape: Shape) -> bool
    requires { (shape.letters ≤ max_letters) × (length file.now ≡ file_length (Shapes.slots_of shape)) }
    ensures { result ≡ same (take (count_size + line_size * tag_count (Shapes.slots_of shape)) (drop header_size file.now)) (table (Shapes.slots_of shape)) }
{
    let mut laid = [0u8; MAX_TABLE_END];
    let at = tag_table::put_table(&mut laid, shape);
    buffer::same_bytes(&file[HEADER_SIZE..at], &laid[HEADER_SIZE..at])
}

// Whether the tag table and the length are those of a shape that some plan has.
pub fn table_is(file: &[u8], shape: Shape) -> bool
    requires { header_size + count_size ≤ length file.now }
    ensures { result ≡ Decide.decided (Decide.table_is shape file.now) }
{
    if !plan_checks::shape_is_good(shape) {
        return false;
    }
    if file.len() != layout::length(shape) {
        return false;
    }
    same_table(file, shape)
}

// Whether a file has the elements and the id of a plan.
#[derive(Clone, Copy, Debug, PartialEq, Eq)]
pub struct Comparison {
    pub elements: bool,
    pub id: bool,
}

// The header and the tag table of a file, which end at `at`, with the intent and the id zero, to the front of a slice.
fn put_blank_front(laid: &mut [u8], file: &[u8], at: usize)
    requires { (header_size ≤ at) × (at ≤ length file.now) × (at ≤ length laid.old) }
    ensures { laid.new ≡ put laid.old 0 (put (put (take at file.now) intent_at (be32 0)) id_at (zeros id_size)) }
{
    buffer::put_bytes(laid, 0, &file[..at]);
    words::put_u32_be(laid, INTENT, 0);
    buffer::put_zeros(laid, ID, ID_SIZE);
}

// Whether sixteen zero bytes stand in place of the id.
pub fn id_is_zeros(file: &[u8]) -> bool
    requires { header_size + count_size ≤ length file.now }
    ensures { result ≡ same (take id_size (drop id_at file.now)) (zeros id_size) }
{
    buffer::same_bytes(&file[ID..ID_END], &[0; ID_SIZE])
}

// A file compared with the layout of the one plan that it can have. Its header and its tag table are those of the plan, so only the rest is laid out.
pub fn compared(file: &[u8], plan: Numbers, text: &[u8]) -> Comparison
    requires { Candidate file.now plan text.now × (Tests.letters_and_cicp_good plan text.now ≡ true) }
    ensures elements_value { result.elements ≡ same (drop (start (Shapes.slots_of (Shapes.shape (plan_of plan text.now)))) file.now) (drop (start (Shapes.slots_of (Shapes.shape (plan_of plan text.now)))) (layout (plan_of plan text.now))) }
    ensures id_value { result.id ≡ same (take id_size (drop id_at file.now)) (take id_size (drop id_at (layout (plan_of plan text.now)))) }
{
    let at = table_lines::elements_start(file);
    let mut laid = [0u8; MAX_LENGTH];
    let size = file.len();
    put_blank_front(&mut laid, file, at);
    layout::put_elements_and_id(&mut laid, at, size, plan, text);
    Comparison {
        elements: buffer::same_bytes(&file[at..], &laid[at..size]),
        id: buffer::same_bytes(&file[ID..ID_END], &laid[ID..ID_END]),
    }
}
