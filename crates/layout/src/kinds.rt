// The elements of each kind of profile, in tag order.
ghost use Rattle.std.specs.Prelude.{◌+◌, ◌≤◌, length, ◌≡◌};
ghost use Rattle.buffer.specs.Puts.{Puts};
ghost use Rattle.profile.specs.Elements.{body, body_size};
ghost use Rattle.profile.specs.Layout as Layout;
ghost use Rattle.profile.specs.Numbers.{plan_of};
ghost use Rattle.profile.specs.Plan.{max_letters};
ghost use Rattle.profile.specs.Shape as Shapes;

use elements::D50;
use profile::{Content, Curve, GrayWhite, Numbers};

// The Y of a gray profile's white, 1 as a fixed number.
const WHITE_Y: i32 = 65536;

// `desc`, `cprt` and `wtpt`, with which every profile starts.
#[tactic(auto, using(crate::proofs::KindParts::cprt_size, crate::proofs::KindParts::first_size))]
fn put_first_elements(out: &mut [u8], at: usize, text: &[u8], white: [i32; 3]) -> usize
    requires { (length text.now ≤ max_letters) × (at + body_size (Shapes.first_slots (length text.now)) ≤ length out.old) }
    ensures { Puts out.old at (body_size (Shapes.first_slots (length text.now))) (body (Layout.first_elements text.now white)) result out.new }
{
    let at = elements::create_icc_mluc_tag(out, at, text);
    let at = elements::create_icc_mluc_tag(out, at, b"CC0");
    elements::create_icc_xyz_tag(out, at, &white)
}

// The columns of RGB, red, green and blue, and its one curve.
#[tactic(auto, using(crate::proofs::KindParts::color_size))]
fn put_color_elements(out: &mut [u8], at: usize, columns: [i32; 9], curve: Curve) -> usize
    requires { at + body_size (Shapes.color_slots (Shapes.curve_size (Shapes.is_gamma curve))) ≤ length out.old }
    ensures { Puts out.old at (body_size (Shapes.color_slots (Shapes.curve_size (Shapes.is_gamma curve)))) (body (Layout.color_elements columns curve)) result out.new }
{
    let at = elements::create_icc_xyz_tag(out, at, &columns[0..3]);
    let at = elements::create_icc_xyz_tag(out, at, &columns[3..6]);
    let at = elements::create_icc_xyz_tag(out, at, &columns[6..9]);
    elements::put_curve(out, at, curve)
}

// The white of a gray profile: its own or, adapted, that of the PCS.
fn gray_white(white: GrayWhite) -> [i32; 3]
    ensures { result ≡ Layout.white_numbers white }
{
    match white {
        GrayWhite::Unadapted { x, z } => [x, WHITE_Y, z],
        GrayWhite::Adapted(_) => D50,
    }
}

// The `chad` of a gray profile, if its white is adapted.
fn put_gray_chad(out: &mut [u8], at: usize, white: GrayWhite) -> usize
    requires { at + body_size (Shapes.chad_slot (Shapes.is_adapted white)) ≤ length out.old }
    ensures { Puts out.old at (body_size (Shapes.chad_slot (Shapes.is_adapted white))) (body (Layout.chad_element white)) result out.new }
{
    match white {
        GrayWhite::Unadapted { .. } => at,
        GrayWhite::Adapted(chad) => elements::create_icc_chad_tag(out, at, &chad),
    }
}

// The elements of a plan with this text.
pub fn put_elements(out: &mut [u8], at: usize, plan: Numbers, text: &[u8]) -> usize
    requires { (length text.now ≤ max_letters) × (at + body_size (Shapes.slots_of (Shapes.shape (plan_of plan text.now))) ≤ length out.old) }
    ensures { Puts out.old at (body_size (Shapes.slots_of (Shapes.shape (plan_of plan text.now)))) (body (Layout.elements (plan_of plan text.now))) result out.new }
{
    match plan.content {
        Content::Gray { curve, white } => {
            let at = put_first_elements(out, at, text, gray_white(white));
            let at = put_gray_chad(out, at, white);
            elements::put_curve(out, at, curve)
        }
        Content::Rgb {
            curve,
            cicp,
            chad,
            columns,
        } => {
            let at = put_first_elements(out, at, text, D50);
            let at = elements::create_icc_chad_tag(out, at, &chad);
            let at = elements::create_icc_cicp_tag_data(out, at, cicp, curve);
            put_color_elements(out, at, columns, curve)
        }
        Content::Xyb => {
            let at = put_first_elements(out, at, &profile::xyb_text(plan.intent), D50);
            let at = elements::create_icc_chad_tag(out, at, &xyb_constants::chad());
            let at = xyb_elements::create_icc_lut_atob_tag_for_xyb(out, at);
            xyb_elements::create_icc_noop_btoa_tag(out, at)
        }
    }
}
