// The plan by value as the bytes of a C struct: numbers of 32 bits, the least significant byte first, and then the letters. The callers have checked
// that there is room; each function answers the place after what it put.

#![tactic(auto)]

ghost use Rattle.std.specs.Prelude.{◌≡◌, map, ◌+◌, ◌*◌, ◌≤◌, length, take};
ghost use Rattle.buffer.specs.Puts.{Puts};
ghost use Rattle.words.specs.Words.{twos_complement32};
ghost use Rattle.profile.specs.Plan.{max_letters};
ghost use Rattle.plan_record.specs.PlanRecord.{le32s, record_numbers, record_size, plan_record};

use numbers::i32_to_bits;
use reading::Reading;
use words::put_u32_le;

// The numbers of the struct, and its bytes.
const NUMBER_COUNT: usize = 30;

pub const RECORD_SIZE: usize = 4 * NUMBER_COUNT + profile::MAX_LETTERS;

fn put_u32s_le(out: &mut [u8], at: usize, values: &[u32]) -> usize
    requires { at + 4 * length values.now ≤ length out.old }
    ensures { Puts out.old at (4 * length values.now) (le32s values.now) result out.new }
{
    let mut next = at;
    for value in values {
        next = put_u32_le(out, next, *value);
    }
    next
}

// The two's complement of each of nine numbers.
fn bits(values: [i32; 9]) -> [u32; 9]
    ensures { result ≡ map twos_complement32 values }
{
    values.map(i32_to_bits)
}

// The numbers before `chad`.
#[tactic(auto, unfolding(crate::specs::PlanRecord::record_numbers))]
fn first_numbers(plan: Reading) -> [u32; 11]
    ensures { result ≡ take 11 (record_numbers plan) }
{
    [
        plan.kind,
        plan.intent,
        plan.maker,
        plan.model,
        plan.id_not_computed,
        plan.curve,
        i32_to_bits(plan.gamma),
        plan.cicp,
        plan.adapted,
        i32_to_bits(plan.white_x),
        i32_to_bits(plan.white_z),
    ]
}

pub fn put_plan_record(out: &mut [u8], at: usize, plan: Reading) -> usize
    requires { (at + record_size ≤ length out.old) × (plan.letters ≤ max_letters) }
    ensures { Puts out.old at record_size (plan_record plan) result out.new }
{
    let at = put_u32s_le(out, at, &first_numbers(plan));
    let at = put_u32s_le(out, at, &bits(plan.chad));
    let at = put_u32s_le(out, at, &bits(plan.columns));
    let at = put_u32_le(out, at, plan.letters as u32);
    buffer::put_bytes(out, at, &plan.text)
}
