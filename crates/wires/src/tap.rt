ghost use Rattle.std.specs.Prelude.{◌≡◌};
ghost use Rattle.unit.specs.Making.{GoesBy};
ghost use Rattle.wires.specs.Taps.{figure_of, signed};

use crate::source::Source;
use unit::pulse::Pulse;
use unit::refusal::Refusal;

// The sign of a tap. A type of its own beside the sense of a turn layer, which has the same figures: neither may be given for the other.
#[derive(Clone, Copy, PartialEq, Eq, Debug)]
pub enum Sign {
    Plus,
    Minus,
}

// The sign that goes by this figure: 0 is plus, 1 minus.
impl TryFrom<u8> for Sign {
    type Error = Refusal;

    ghost try_from_gives = { GoesBy figure_of };

    fn try_from(figure: u8) -> Result<Sign, Refusal> {
        match figure {
            0 => Ok(Sign::Plus),
            1 => Ok(Sign::Minus),
            _ => Err(Refusal::FigureOutOfRange),
        }
    }
}

// The figure that the sign goes by.
impl From<Sign> for u8 {
    ghost from_gives = { λ sign figure. figure ≡ figure_of sign };

    fn from(sign: Sign) -> u8 {
        match sign {
            Sign::Plus => 0,
            Sign::Minus => 1,
        }
    }
}

impl Sign {
    // The sign times a pulse.
    pub fn times(self, pulse: Pulse) -> Pulse
        ensures { result ≡ signed self pulse }
    {
        match self {
            Sign::Plus => pulse,
            Sign::Minus => pulse.opposite(),
        }
    }
}

// One tap of a unit: it delivers its sign times what its source gives.
#[derive(Clone, Copy, PartialEq, Eq, Debug)]
pub struct Tap {
    pub sign: Sign,
    pub source: Source,
}

// The two inputs of a unit.
#[derive(Clone, Copy, PartialEq, Eq, Debug)]
pub enum Input {
    X,
    Y,
}
