ghost use Rattle.std.specs.Prelude.{◌≡◌};
ghost use Rattle.lines.specs.Kinds.{FrameOf, digits_of, size_of};

use crate::reader::Part;
use unit::refusal::Refusal;

// A frame, by its letter: each case holds the digits, a part of the caller's own text with its place.
#[derive(Clone, Copy, PartialEq, Eq, Debug)]
pub enum Frame<'a> {
    Count(Part<'a>),
    Integrator(Part<'a>),
    Servo(Part<'a>),
    X(Part<'a>),
    Y(Part<'a>),
    Last(Part<'a>),
}

// The frame that a line is: the letter decides what the digits are. Refused where the line is empty or no frame has its letter.
impl<'a> TryFrom<Part<'a>> for Frame<'a> {
    type Error = Refusal;

    ghost try_from_gives = { FrameOf };

    fn try_from(line: Part<'a>) -> Result<Frame<'a>, Refusal> {
        let (letter, bytes) = line.bytes.split_first().ok_or(Refusal::FrameOrder)?;
        let digits = Part {
            bytes,
            at: line.at.saturating_add(1),
        };
        // by char literals, as the rules name the letters
        match *letter as char {
            'P' => Ok(Frame::Count(digits)),
            'I' => Ok(Frame::Integrator(digits)),
            'S' => Ok(Frame::Servo(digits)),
            'X' => Ok(Frame::X(digits)),
            'Y' => Ok(Frame::Y(digits)),
            'G' => Ok(Frame::Last(digits)),
            _ => Err(Refusal::FrameOrder),
        }
    }
}

impl<'a> Frame<'a> {
    // What comes after the letter.
    pub fn digits(self) -> Part<'a>
        ensures { result ≡ digits_of self.entry }
    {
        match self {
            Frame::Count(digits)
            | Frame::Integrator(digits)
            | Frame::Servo(digits)
            | Frame::X(digits)
            | Frame::Y(digits)
            | Frame::Last(digits) => digits,
        }
    }

    // How many digits the letter asks for.
    pub fn size(self) -> usize
        ensures { result ≡ size_of self.entry }
    {
        match self {
            Frame::Count(_) => 2,
            Frame::Integrator(_) => 24,
            Frame::Servo(_) => 22,
            Frame::X(_) | Frame::Y(_) => 6,
            Frame::Last(_) => 12,
        }
    }
}
