// The layout of a plan into a lent slice: header, tag table, elements and id, as `maybe_create_profile` of api/color.rs writes them.

#![tactic(auto)]

mod kinds;

ghost use Rattle.std.specs.Prelude.{◌≡◌, ◌≤◌};
ghost use Rattle.std.proofs.Math.ListN as ListN;
ghost use Rattle.buffer.specs.Buffer.{put};
ghost use Rattle.buffer.specs.Puts.{PutsText};
ghost use Rattle.profile.specs.Layout.{layout};
ghost use Rattle.profile.specs.Numbers.{plan_of};
ghost use Rattle.profile.specs.Plan.{max_letters};
ghost use Rattle.layout.specs.Begun.{Begun};

use header::{create_icc_header, put_intent_and_id};
use profile::Numbers;
pub use tag_table::{MAX_LENGTH, length};

// Elements, intent and id of a plan whose header, with the intent and the id still zero, and whose tag table are in front of the output. They end
// at `at`, and the whole has `size` bytes.
pub fn put_elements_and_id(out: &mut [u8], at: usize, size: usize, plan: Numbers, text: &[u8])
    requires { (ListN.length text.now ≤ max_letters) × Begun (plan_of plan text.now) out.old at size }
    ensures { out.new ≡ put out.old 0 (layout (plan_of plan text.now)) }
{
    kinds::put_elements(out, at, plan, text);
    put_intent_and_id(out, size, plan.intent);
}

// Lays a plan, whose layout has `size` bytes, into the front of the output, and answers that length.
pub fn put_plan(out: &mut [u8], plan: Numbers, text: &[u8], size: usize) -> usize
    requires { (ListN.length text.now ≤ max_letters) × (size ≡ ListN.length (layout (plan_of plan text.now))) × (size ≤ ListN.length out.old) }
    ensures { PutsText out.old 0 (layout (plan_of plan text.now)) result out.new }
{
    let kind = plan.content.kind();
    let shape = profile::shape_of(plan, text.len());
    create_icc_header(out, size as u32, kind, plan.maker, plan.model);
    let at = tag_table::put_table(out, shape);
    put_elements_and_id(out, at, size, plan, text);
    size
}
