// The last checks of the refusal list (01), of the elements, the numbers and the id of a file; and what its id says of the plan.

#![tactic(auto)]

ghost use Rattle.std.specs.Prelude.{◌≡◌};
ghost use Rattle.refusals.specs.Refusals.{checked};
ghost use Rattle.reader_spec.specs.RefusalList.{marked};
ghost use Rattle.reader_spec.specs.Steps.{Candidate};
ghost use Rattle.reader_spec.specs.Read as Read;

use profile::Numbers;
use refusals::Refusal;
use tag_table::HEADER_SIZE;

// The fewest bytes that are looked at: a header and a number of tags.
pub const SHORTEST: usize = HEADER_SIZE + 4;

// The mark of the one plan that a file can have, true if its id is not computed; or the first check of elements, range and id that the file does not pass.
pub fn plan_answer(file: &[u8], plan: Numbers, text: &[u8]) -> Result<bool, Refusal>
    requires { Candidate file.now plan text.now }
    ensures { checked result ≡ marked (Read.from_body file.now) }
{
    let wrong = Refusal::WrongElements;
    if !plan_checks::letters_and_cicp_good(plan, text) {
        return Err(wrong);
    }
    let found = comparisons::compared(file, plan, text);
    if !found.elements {
        return Err(wrong);
    }
    if !plan_checks::numbers_in_range(plan) {
        return Err(Refusal::OutOfRange);
    }
    // Zeros mean not computed only where they are not the correct id, so this one is tried first.
    let zeros = comparisons::id_is_zeros(file);
    if found.id {
        return Ok(false);
    }
    if zeros {
        return Ok(true);
    }
    Err(Refusal::WrongId)
}
