// A refusal: which of document 01's faults, and where.
ghost use Rattle.std.specs.Prelude.{◌≡◌, Some};
ghost use Rattle.wire.specs.Refusals.{kind_number, refusal_text};

use std::error::Error;
use std::fmt;

// In the order of 01's table, so that the first is 1.
#[derive(Clone, Copy, Debug, PartialEq, Eq)]
pub enum Kind {
    ShortInput,
    StartBeyond,
    BadVersion,
    BadMessageType,
    UnknownType,
    NegativeSize,
    StringLimit,
    ContainerLimit,
    MessageLimit,
    SkipDepth,
    StructDepth,
    WrongType,
    NotUtf8,
    NoStructOpen,
    OutputFull,
    TooLong,
    Missing,
    FrameLimit,
    FrameAboveMessage,
    DepthBeyond,
}

#[derive(Clone, Copy, Debug, PartialEq, Eq)]
pub struct Refusal {
    pub kind: Kind,
    pub place: usize,
}

impl Kind {
    // The refusal of this kind at a place. Refuses nothing.
    // ShortInput and 5 give 1 at 5.
    pub fn at(self, place: usize) -> Refusal
        ensures { result ≡ record { kind = self; place = place } }
    {
        Refusal { kind: self, place }
    }
}

// 01's number of a kind. Refuses nothing.
// ShortInput gives 1; DepthBeyond gives 20.
impl From<Kind> for u8 {
    ghost from_gives = { λ kind number. number ≡ kind_number kind };

    fn from(kind: Kind) -> u8 {
        match kind {
            Kind::ShortInput => 1,
            Kind::StartBeyond => 2,
            Kind::BadVersion => 3,
            Kind::BadMessageType => 4,
            Kind::UnknownType => 5,
            Kind::NegativeSize => 6,
            Kind::StringLimit => 7,
            Kind::ContainerLimit => 8,
            Kind::MessageLimit => 9,
            Kind::SkipDepth => 10,
            Kind::StructDepth => 11,
            Kind::WrongType => 12,
            Kind::NotUtf8 => 13,
            Kind::NoStructOpen => 14,
            Kind::OutputFull => 15,
            Kind::TooLong => 16,
            Kind::Missing => 17,
            Kind::FrameLimit => 18,
            Kind::FrameAboveMessage => 19,
            Kind::DepthBeyond => 20,
        }
    }
}

// A refusal's words: its number and its place. Refuses nothing.
// ShortInput at 5 prints "refused 1 at 5".
impl fmt::Display for Refusal {
    ghost output = { λ refusal. Some (refusal_text refusal) };

    fn fmt<W: fmt::Write>(&self, f: &mut fmt::Formatter<W>) -> fmt::Result {
        let number = u8::from(self.kind);
        let place = self.place;
        write!(f, "refused {number} at {place}")
    }
}

impl Error for Refusal {}
