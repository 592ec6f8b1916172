// The reader: the one plan that lays out to a file, id included, or the first refusal.

#![tactic(auto)]

pub mod finder;

ghost use Rattle.std.specs.Prelude.{◌≡◌};
ghost use Rattle.refusals.specs.Refusals.{checked};
ghost use Rattle.reader_spec.specs.Table.{varying_of};
ghost use Rattle.reader_spec.specs.Steps.{Tabled};
ghost use Rattle.reader_spec.specs.Read as Read;
ghost use Rattle.reading.specs.Reading as Answers;

use buffer::Text;
use comparisons::{header_is, table_is};
pub use finder::{find, find_line};
use plan_checks::intent_is_good;
use profile::{MAX_LETTERS, Shape};
pub use reading::{NumberAndPlan, Reading};
use refusals::Refusal;

// Elements, range and id of a file with the table of a shape.
fn read_elements(file: &[u8], shape: Shape, intent: u32) -> Result<Reading, Refusal>
    requires { Tabled shape file.now × (intent ≡ (varying_of file.now).intent) }
    ensures { checked result ≡ Answers.reading (Read.from_body file.now) }
{
    let plan = plan_in::numbers_in(file, shape, intent);
    let mut text = Text {
        bytes: [0; MAX_LETTERS],
        len: 0,
    };
    text.len = plan_in::text_in(file, shape, &mut text.bytes);
    let mark = reader_checks::plan_answer(file, plan, &text.bytes[..text.len])?;
    Ok(reading::accepted(plan, u32::from(mark), &text))
}

// Reads a file.
pub fn read(file: &[u8]) -> Result<Reading, Refusal>
    ensures { checked result ≡ Answers.reading (Read.read file.now) }
{
    if file.len() < reader_checks::SHORTEST {
        return Err(Refusal::FileTooShort);
    }
    let size = words::read_u32_be(file, 0);
    if size as usize != file.len() {
        return Err(Refusal::WrongSize);
    }
    let kind = fields::kind_of(file);
    let intent = words::read_u32_be(file, header::INTENT);
    if !header_is(file, kind, intent) {
        return Err(Refusal::WrongHeader);
    }
    if !intent_is_good(intent) {
        return Err(Refusal::WrongIntent);
    }
    let shape = fields::shape_in(file, kind);
    if !table_is(file, shape) {
        return Err(Refusal::WrongTable);
    }
    read_elements(file, shape, intent)
}

// The same as 01 has it: 0 and the plan, or the refusal's number and a plan of zeros.
pub fn number_and_plan(file: &[u8]) -> NumberAndPlan
    ensures { result ≡ Answers.number_and_plan (Answers.reading (Read.read file.now)) }
{
    reading::numbered(read(file))
}
