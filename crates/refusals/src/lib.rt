// The refusal list of 01, with the numbers that the orders of 02 add to it.

#![tactic(auto)]

ghost use Rattle.std.specs.Prelude.{◌≡◌};
ghost use Rattle.refusals.specs.Refusals.{number};

// Why a call refuses, by its number on the list.
#[derive(Clone, Copy, Debug, PartialEq, Eq)]
pub enum Refusal {
    // the writer
    UnsupportedTransferFunction = 1,
    InvalidWhitePointY = 3,
    InvalidWhitePoint = 4,
    ChadOutOfRange = 5,
    MatrixInversionFailed = 6,
    ValueOutOfRange = 7,
    GammaOutOfRange = 8,
    TooShort = 9,
    // the reader
    FileTooShort = 21,
    WrongSize = 22,
    WrongHeader = 23,
    WrongIntent = 24,
    WrongTable = 25,
    WrongElements = 26,
    OutOfRange = 27,
    WrongId = 28,
    // jobs, and the codes of an encoding's parts
    EndsEarly = 41,
    BytesLeft = 42,
    Unknown = 43,
    // typed texts
    NotInLanguage = 51,
    GammaIsZero = 52,
    // APP2 segments
    WrongDataSize = 53,
    WrongSegments = 54,
    SegmentsTooShort = 55,
}

impl Refusal {
    pub fn number(self) -> u32
        ensures { result ≡ number self }
    {
        self as u32
    }
}
