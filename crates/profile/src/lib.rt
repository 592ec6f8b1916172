// The profiles: a plan and its layout are definitions (specs/). Here are a plan by value and its shape. The crate `elements` writes the tag data
// elements, and `layout` lays out whole plans.

#![tactic(auto)]

ghost use Rattle.std.specs.Prelude.{ℕ, ◌≡◌, List, length};
ghost use Rattle.profile.specs.Layout as Layouts;
ghost use Rattle.profile.specs.Numbers as Plans;
ghost use Rattle.profile.specs.Shape as Shapes;

// The most letters of a text.
pub const MAX_LETTERS: usize = 372;

// The letters of an XYB plan's text.
pub const XYB_LETTERS: usize = 7;

// Where in an `mluc` element its text begins, and the bytes of a curve that is a gamma.
pub const MLUC_TEXT: usize = 28;

pub const GAMMA_SIZE: u32 = 16;

// The first number of each named curve, by which it is told from the others.
pub const BT709_GAMMA: i32 = 145636;

pub const LINEAR_GAMMA: i32 = 65536;

pub const SRGB_GAMMA: i32 = 157286;

pub const DCI_GAMMA: i32 = 170394;

// The three kinds of profile.
#[derive(Clone, Copy, Debug, PartialEq, Eq)]
pub enum Kind {
    Gray,
    Rgb,
    Xyb,
}

// The shape of a plan, which its tag table and its length show: the letters of its text, whether its curve is a gamma, whether it has
// `cicp` and whether it is gray with its white adapted to D50.
#[derive(Clone, Copy, Debug, PartialEq, Eq)]
pub struct Shape {
    pub kind: Kind,
    pub letters: usize,
    pub gamma: bool,
    pub cicp: bool,
    pub adapted: bool,
}

// A named curve: its five numbers are those of function type 3.
#[derive(Clone, Copy, Debug, PartialEq, Eq)]
pub enum CurveName {
    BT709,
    Linear,
    SRGB,
    DCI,
}

// A curve of a profile: a named one, or function type 0 with the fixed number of 1/g.
#[derive(Clone, Copy, Debug, PartialEq, Eq)]
pub enum Curve {
    Named(CurveName),
    Gamma(i32),
}

// The white of a gray plan: its own, X and Z, as Y is 65536; or adapted to D50, the nine numbers of `chad`, by rows.
#[derive(Clone, Copy, Debug, PartialEq, Eq)]
pub enum GrayWhite {
    Unadapted { x: i32, z: i32 },
    Adapted([i32; 9]),
}

// What a plan of each kind has but its text. The nine numbers of `chad` go by rows, those of the columns are the red, the green and the blue one,
// and `cicp` is its value of ColourPrimaries, if there is that tag.
#[derive(Clone, Copy, Debug, PartialEq, Eq)]
pub enum Content {
    Gray {
        curve: Curve,
        white: GrayWhite,
    },
    Rgb {
        curve: Curve,
        cicp: Option<u8>,
        chad: [i32; 9],
        columns: [i32; 9],
    },
    Xyb,
}

impl Content {
    pub fn kind(self) -> Kind
        ensures { result ≡ Plans.kind_of self }
    {
        match self {
            Content::Gray { .. } => Kind::Gray,
            Content::Rgb { .. } => Kind::Rgb,
            Content::Xyb => Kind::Xyb,
        }
    }
}

// A plan but for its text, which is lent beside it. Maker and model are four bytes each, the first the most significant.
#[derive(Clone, Copy, Debug, PartialEq, Eq)]
pub struct Numbers {
    pub intent: u32,
    pub maker: u32,
    pub model: u32,
    pub content: Content,
}

impl Numbers {
    // The numbers of this intent and content, with maker and model zero.
    pub fn plain(intent: u32, content: Content) -> Numbers
        ensures { result ≡ Plans.plain_numbers intent content }
    {
        Numbers {
            intent,
            maker: 0,
            model: 0,
            content,
        }
    }

    // The numbers with this maker and this model.
    pub fn with_device(self, maker: u32, model: u32) -> Numbers
        ensures { result ≡ Plans.numbers_with maker model self }
    {
        Numbers {
            maker,
            model,
            ..self
        }
    }
}

// The text of an XYB plan with this intent. No plan has an intent above 3.
#[tactic(auto, unfolding(crate::specs::Layout::xyb_text))]
pub fn xyb_text(intent: u32) -> [u8; XYB_LETTERS]
    ensures { result ≡ Layouts.xyb_text intent }
{
    match intent {
        1 => *b"XYB_Rel",
        2 => *b"XYB_Sat",
        3 => *b"XYB_Abs",
        _ => *b"XYB_Per",
    }
}

fn is_gamma(curve: Curve) -> bool
    ensures { result ≡ Shapes.is_gamma curve }
{
    matches!(curve, Curve::Gamma(_))
}

fn is_adapted(white: GrayWhite) -> bool
    ensures { result ≡ Shapes.is_adapted white }
{
    matches!(white, GrayWhite::Adapted(_))
}

// The shape of a plan with a text of so many letters.
pub fn shape_of(plan: Numbers, letters: usize) -> Shape
    ensures { (text : List ℕ) → letters ≡ length text → result ≡ Shapes.shape (Plans.plan_of plan text) }
{
    match plan.content {
        Content::Gray { curve, white } => Shape {
            kind: Kind::Gray,
            letters,
            gamma: is_gamma(curve),
            cicp: false,
            adapted: is_adapted(white),
        },
        Content::Rgb { curve, cicp, .. } => Shape {
            kind: Kind::Rgb,
            letters,
            gamma: is_gamma(curve),
            cicp: cicp.is_some(),
            adapted: false,
        },
        Content::Xyb => Shape {
            kind: Kind::Xyb,
            letters: XYB_LETTERS,
            gamma: false,
            cicp: false,
            adapted: false,
        },
    }
}
