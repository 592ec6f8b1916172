// The reader's answer by value: the plan in numbers; and the refusal's number beside a plan of zeros.

#![tactic(auto)]

ghost use Rattle.std.specs.Prelude.{◌≡◌};
ghost use Rattle.buffer.specs.Checked.{refused};
ghost use Rattle.refusals.specs.Refusals.{checked};
ghost use Rattle.reading.specs.Reading as Answers;

use buffer::Text;
use profile::{Content, Curve, CurveName, GrayWhite, Kind, MAX_LETTERS, Numbers};
use refusals::Refusal;

// The plan of an accepted file in numbers, as `struct merqyduk_plan` of the C interface has them.
#[derive(Clone, Copy, Debug, PartialEq, Eq)]
pub struct Reading {
    pub kind: u32,
    pub intent: u32,
    pub maker: u32,
    pub model: u32,
    pub id_not_computed: u32,
    pub curve: u32,
    pub gamma: i32,
    pub cicp: u32,
    pub adapted: u32,
    pub white_x: i32,
    pub white_z: i32,
    pub chad: [i32; 9],
    pub columns: [i32; 9],
    pub letters: usize,
    pub text: [u8; MAX_LETTERS],
}

// The answer as 01 has it: 0 and the plan of an accepted file, or the refusal's number and a plan of zeros.
#[derive(Clone, Copy, Debug, PartialEq, Eq)]
pub struct NumberAndPlan {
    pub number: u32,
    pub plan: Reading,
}

fn kind_number(kind: Kind) -> u32
    ensures { result ≡ Answers.kind_number kind }
{
    match kind {
        Kind::Gray => 1,
        Kind::Rgb => 2,
        Kind::Xyb => 3,
    }
}

fn name_number(name: CurveName) -> u32
    ensures { result ≡ Answers.name_number name }
{
    match name {
        CurveName::BT709 => 0,
        CurveName::Linear => 1,
        CurveName::SRGB => 2,
        CurveName::DCI => 4,
    }
}

// The number of a curve, and that of its gamma.
fn curve_numbers(curve: Curve) -> (u32, i32)
    ensures { (result.0 ≡ Answers.curve_number curve) × (result.1 ≡ Answers.gamma_number curve) }
{
    match curve {
        Curve::Named(name) => (name_number(name), 0),
        Curve::Gamma(g) => (6, g),
    }
}

fn cicp_number(cicp: Option<u8>) -> u32
    ensures { result ≡ Answers.cicp_number cicp }
{
    match cicp {
        None => 0,
        Some(v) => u32::from(v),
    }
}

// The plan in numbers, with the number of its mark: what is not set stays zero.
pub fn accepted(plan: Numbers, id_not_computed: u32, text: &Text<MAX_LETTERS>) -> Reading
    ensures { result ≡ Answers.accepted_with plan id_not_computed text.now.len text.now.bytes }
{
    let mut r = Reading {
        kind: kind_number(plan.content.kind()),
        intent: plan.intent,
        maker: plan.maker,
        model: plan.model,
        id_not_computed,
        curve: 0,
        gamma: 0,
        cicp: 0,
        adapted: 0,
        white_x: 0,
        white_z: 0,
        chad: [0; 9],
        columns: [0; 9],
        letters: text.len,
        text: text.bytes,
    };
    match plan.content {
        Content::Gray { curve, white } => {
            (r.curve, r.gamma) = curve_numbers(curve);
            match white {
                GrayWhite::Unadapted { x, z } => {
                    r.white_x = x;
                    r.white_z = z;
                }
                GrayWhite::Adapted(m) => {
                    r.adapted = 1;
                    r.chad = m;
                }
            }
        }
        Content::Rgb {
            curve,
            cicp,
            chad,
            columns,
        } => {
            (r.curve, r.gamma) = curve_numbers(curve);
            r.cicp = cicp_number(cicp);
            r.chad = chad;
            r.columns = columns;
        }
        Content::Xyb => {}
    }
    r
}

// A refusal's number and a plan of zeros.
pub fn refused(number: u32) -> NumberAndPlan
    ensures { result ≡ Answers.number_and_plan (refused number) }
{
    NumberAndPlan {
        number,
        plan: Reading {
            kind: 0,
            intent: 0,
            maker: 0,
            model: 0,
            id_not_computed: 0,
            curve: 0,
            gamma: 0,
            cicp: 0,
            adapted: 0,
            white_x: 0,
            white_z: 0,
            chad: [0; 9],
            columns: [0; 9],
            letters: 0,
            text: [0; MAX_LETTERS],
        },
    }
}

// What the reader answers, with its number.
pub fn numbered(answer: Result<Reading, Refusal>) -> NumberAndPlan
    ensures { result ≡ Answers.number_and_plan (checked answer) }
{
    match answer {
        Ok(plan) => NumberAndPlan { number: 0, plan },
        Err(refusal) => refused(refusal.number()),
    }
}
