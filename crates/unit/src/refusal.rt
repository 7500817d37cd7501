ghost use Rattle.std.specs.Prelude.{◌≡◌};
ghost use Rattle.unit.specs.Refusals.{number};

use thiserror::Error;

// Why a call refuses. The number of each case is in docs/REFUSALS.md and in specs/Refusals.antt.
#[derive(Clone, Copy, PartialEq, Eq, Debug, Error)]
pub enum Refusal {
    // 1 to 10: the input is wrong
    #[error("the text is empty, too long or does not end in a line feed")]
    TextExtent,
    #[error("no such frame may stand here")]
    FrameOrder,
    #[error("the frame does not have the digits of its letter")]
    FrameDigits,
    #[error("the unit number is not the one to come here")]
    UnitOrder,
    #[error("a figure is outside its range")]
    FigureOutOfRange,
    #[error("the source is not there")]
    NoSuchSource,
    #[error("there is no such outside line, or no such pulse to feed")]
    NoSuchFeed,
    #[error("there is no such unit or line")]
    NotThere,
    #[error("the buffer is too short")]
    BufferTooShort,
    #[error("rack and net are not those of the job")]
    OtherRackOrNet,
    // 21 to 27: the state does not allow it
    #[error("there is no place left for a unit")]
    RackFull,
    #[error("the tap is taken")]
    TapTaken,
    #[error("a pulse waits on that line")]
    PulseWaiting,
    #[error("all ticks are spent")]
    TicksSpent,
    #[error("unit {unit} would leave its range")]
    LeavesRange { unit: u8 },
    #[error("there are no units")]
    NoUnits,
    #[error("unit {unit} tells no modulus")]
    ModulusUntold { unit: u8 },
}

// The number that the refusal goes by.
impl From<Refusal> for u8 {
    ghost from_gives = { λ refusal n. n ≡ number refusal };

    fn from(refusal: Refusal) -> u8 {
        match refusal {
            Refusal::TextExtent => 1,
            Refusal::FrameOrder => 2,
            Refusal::FrameDigits => 3,
            Refusal::UnitOrder => 4,
            Refusal::FigureOutOfRange => 5,
            Refusal::NoSuchSource => 6,
            Refusal::NoSuchFeed => 7,
            Refusal::NotThere => 8,
            Refusal::BufferTooShort => 9,
            Refusal::OtherRackOrNet => 10,
            Refusal::RackFull => 21,
            Refusal::TapTaken => 22,
            Refusal::PulseWaiting => 23,
            Refusal::TicksSpent => 24,
            Refusal::LeavesRange { .. } => 25,
            Refusal::NoUnits => 26,
            Refusal::ModulusUntold { .. } => 27,
        }
    }
}

// What is wrong with a patch text, and at which line; lines count from 1, and a fault of the whole text has line 0.
#[derive(Clone, Copy, PartialEq, Eq, Debug, Error)]
#[error("line {line}: {refusal}")]
pub struct TextFault {
    pub refusal: Refusal,
    pub line: u16,
}

// A unit that found no place or no layer comes back with the refusal.
#[derive(Debug, Drop)]
pub struct Returned<U> {
    pub unit: U,
    pub refusal: Refusal,
}

// For a caller that lets the unit go.
impl<U: Drop> From<Returned<U>> for Refusal {
    ghost from_gives = { λ returned refusal. refusal ≡ returned.refusal };

    fn from(returned: Returned<U>) -> Refusal {
        returned.refusal
    }
}
