// The color encodings that a profile is written for: the `Jxl...` enums of api/color.rs and `RenderingIntent` of
// headers/color_encoding.rs, the CIE xy coordinates of each white point and set of primaries, and each enum from its job number.
// (An encoding from the codes of its parts is in encoding_codes.)

#![tactic(auto)]

ghost use Rattle.std.specs.Prelude.{◌≡◌};
ghost use Rattle.color_encoding.specs.Coordinates.{white_xy, primaries_xy};
ghost use Rattle.color_encoding.specs.Intent.{intent_number, intent_name};
ghost use Rattle.color_encoding.specs.Codes.{intent_from, white_point_from, primaries_from, transfer_function_from};
ghost use Rattle.refusals.specs.Refusals.{checked};
ghost use Rattle.color_encoding.specs.Codes.{white_point_number, primaries_number, transfer_function_number};

use refusals::Refusal;

#[derive(Clone, Copy, Debug, PartialEq, Eq)]
pub enum RenderingIntent {
    Perceptual = 0,
    Relative = 1,
    Saturation = 2,
    Absolute = 3,
}

#[derive(Clone, Copy, Debug, PartialEq)]
pub enum JxlWhitePoint {
    D65,
    E,
    DCI,
    Chromaticity { wx: f32, wy: f32 },
}

#[derive(Clone, Copy, Debug, PartialEq)]
pub enum JxlPrimaries {
    SRGB,
    BT2100,
    P3,
    Chromaticities {
        rx: f32,
        ry: f32,
        gx: f32,
        gy: f32,
        bx: f32,
        by: f32,
    },
}

#[derive(Clone, Copy, Debug, PartialEq)]
pub enum JxlTransferFunction {
    BT709,
    Linear,
    SRGB,
    PQ,
    DCI,
    HLG,
    Gamma(f32),
}

#[derive(Clone, Copy, Debug, PartialEq)]
pub enum JxlColorEncoding {
    RgbColorSpace {
        white_point: JxlWhitePoint,
        primaries: JxlPrimaries,
        transfer_function: JxlTransferFunction,
        rendering_intent: RenderingIntent,
    },
    GrayscaleColorSpace {
        white_point: JxlWhitePoint,
        transfer_function: JxlTransferFunction,
        rendering_intent: RenderingIntent,
    },
    XYB {
        rendering_intent: RenderingIntent,
    },
}

// The xy coordinates of a white point.
#[derive(Clone, Copy, Debug, PartialEq)]
pub struct WhiteXy {
    pub wx: f32,
    pub wy: f32,
}

// The xy coordinates of the three primaries.
#[derive(Clone, Copy, Debug, PartialEq)]
pub struct PrimariesXy {
    pub rx: f32,
    pub ry: f32,
    pub gx: f32,
    pub gy: f32,
    pub bx: f32,
    pub by: f32,
}

impl RenderingIntent {
    // The number in a profile's header.
    pub fn number(self) -> u32
        ensures { result ≡ intent_number self }
    {
        self as u32
    }

    // The Rust's `Display`.
    pub fn short_name(self) -> [u8; 3]
        ensures { result ≡ intent_name self }
    {
        match self {
            RenderingIntent::Perceptual => *b"Per",
            RenderingIntent::Relative => *b"Rel",
            RenderingIntent::Saturation => *b"Sat",
            RenderingIntent::Absolute => *b"Abs",
        }
    }
}

impl TryFrom<u32> for RenderingIntent {
    type Error = Refusal;

    ghost try_from_gives = { λ n r. checked r ≡ intent_from n };

    fn try_from(number: u32) -> Result<RenderingIntent, Refusal> {
        match number {
            0 => Ok(RenderingIntent::Perceptual),
            1 => Ok(RenderingIntent::Relative),
            2 => Ok(RenderingIntent::Saturation),
            3 => Ok(RenderingIntent::Absolute),
            _ => Err(Refusal::Unknown),
        }
    }
}

impl JxlWhitePoint {
    pub fn to_xy_coords(self) -> WhiteXy
        ensures { result ≡ white_xy self }
    {
        match self {
            JxlWhitePoint::Chromaticity { wx, wy } => WhiteXy { wx, wy },
            JxlWhitePoint::D65 => WhiteXy {
                wx: 0.3127,
                wy: 0.3290,
            },
            JxlWhitePoint::DCI => WhiteXy {
                wx: 0.314,
                wy: 0.351,
            },
            JxlWhitePoint::E => WhiteXy {
                wx: 1.0 / 3.0,
                wy: 1.0 / 3.0,
            },
        }
    }

    pub fn number(self) -> u32
        ensures { result ≡ white_point_number self }
    {
        match self {
            JxlWhitePoint::D65 => 0,
            JxlWhitePoint::E => 1,
            JxlWhitePoint::DCI => 2,
            JxlWhitePoint::Chromaticity { .. } => 3,
        }
    }

    // The coordinates are read only for a white point of one's own.
    pub fn from_number(kind: u32, own: WhiteXy) -> Result<JxlWhitePoint, Refusal>
        ensures { checked result ≡ white_point_from kind own.wx own.wy }
    {
        match kind {
            0 => Ok(JxlWhitePoint::D65),
            1 => Ok(JxlWhitePoint::E),
            2 => Ok(JxlWhitePoint::DCI),
            3 => Ok(JxlWhitePoint::Chromaticity {
                wx: own.wx,
                wy: own.wy,
            }),
            _ => Err(Refusal::Unknown),
        }
    }
}

// libjxl's numbers, near (0.640, 0.330), (0.300, 0.600), (0.150, 0.060).
const SRGB_XY: PrimariesXy = PrimariesXy {
    rx: 0.6399987,
    ry: 0.33001015,
    gx: 0.3000038,
    gy: 0.60000336,
    bx: 0.15000205,
    by: 0.059997204,
};

const BT2100_XY: PrimariesXy = PrimariesXy {
    rx: 0.708,
    ry: 0.292,
    gx: 0.170,
    gy: 0.797,
    bx: 0.131,
    by: 0.046,
};

const P3_XY: PrimariesXy = PrimariesXy {
    rx: 0.680,
    ry: 0.320,
    gx: 0.265,
    gy: 0.690,
    bx: 0.150,
    by: 0.060,
};

impl JxlPrimaries {
    pub fn to_xy_coords(self) -> PrimariesXy
        ensures { result ≡ primaries_xy self }
    {
        match self {
            JxlPrimaries::Chromaticities {
                rx,
                ry,
                gx,
                gy,
                bx,
                by,
            } => PrimariesXy {
                rx,
                ry,
                gx,
                gy,
                bx,
                by,
            },
            JxlPrimaries::SRGB => SRGB_XY,
            JxlPrimaries::BT2100 => BT2100_XY,
            JxlPrimaries::P3 => P3_XY,
        }
    }

    pub fn number(self) -> u32
        ensures { result ≡ primaries_number self }
    {
        match self {
            JxlPrimaries::SRGB => 0,
            JxlPrimaries::BT2100 => 1,
            JxlPrimaries::P3 => 2,
            JxlPrimaries::Chromaticities { .. } => 3,
        }
    }

    // The coordinates are read only for primaries of one's own.
    pub fn from_number(kind: u32, own: PrimariesXy) -> Result<JxlPrimaries, Refusal>
        ensures { checked result ≡ primaries_from kind own.rx own.ry own.gx own.gy own.bx own.by }
    {
        match kind {
            0 => Ok(JxlPrimaries::SRGB),
            1 => Ok(JxlPrimaries::BT2100),
            2 => Ok(JxlPrimaries::P3),
            3 => Ok(JxlPrimaries::Chromaticities {
                rx: own.rx,
                ry: own.ry,
                gx: own.gx,
                gy: own.gy,
                bx: own.bx,
                by: own.by,
            }),
            _ => Err(Refusal::Unknown),
        }
    }
}

impl JxlTransferFunction {
    pub fn number(self) -> u32
        ensures { result ≡ transfer_function_number self }
    {
        match self {
            JxlTransferFunction::BT709 => 0,
            JxlTransferFunction::Linear => 1,
            JxlTransferFunction::SRGB => 2,
            JxlTransferFunction::PQ => 3,
            JxlTransferFunction::DCI => 4,
            JxlTransferFunction::HLG => 5,
            JxlTransferFunction::Gamma(_) => 6,
        }
    }

    // The gamma is read only for the last number.
    pub fn from_number(curve: u32, gamma: f32) -> Result<JxlTransferFunction, Refusal>
        ensures { checked result ≡ transfer_function_from curve gamma }
    {
        match curve {
            0 => Ok(JxlTransferFunction::BT709),
            1 => Ok(JxlTransferFunction::Linear),
            2 => Ok(JxlTransferFunction::SRGB),
            3 => Ok(JxlTransferFunction::PQ),
            4 => Ok(JxlTransferFunction::DCI),
            5 => Ok(JxlTransferFunction::HLG),
            6 => Ok(JxlTransferFunction::Gamma(gamma)),
            _ => Err(Refusal::Unknown),
        }
    }
}
