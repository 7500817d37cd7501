ghost use Rattle.std.specs.Prelude.{◌≡◌, ◌≤◌, ◌≢◌, unsigned_abs};
ghost use Rattle.layers.specs.Laws.{turned_lawful};
ghost use Rattle.layers.specs.Turns.{figure_of, turned, turned_pulse, turned_number};
ghost use Rattle.layers.specs.declared.turn.Sense.{Sense};
ghost use Rattle.unit.specs.Making.{Enclosed, GoesBy};
ghost use Rattle.unit.specs.Sizes.{largest};

use unit::pulse::Pulse;
use unit::refusal::{Refusal, Returned};
use unit::tally::Tally;
use unit::unit::Unit;

// Which way round the unit in a turn layer stands.
#[derive(Clone, Copy, PartialEq, Eq, Debug)]
pub enum Sense {
    Upright,
    Inverted,
}

// The sense that goes by this figure: 0 is upright, 1 inverted.
impl TryFrom<u8> for Sense {
    type Error = Refusal;

    ghost try_from_gives = { GoesBy figure_of };

    fn try_from(figure: u8) -> Result<Sense, Refusal> {
        match figure {
            0 => Ok(Sense::Upright),
            1 => Ok(Sense::Inverted),
            _ => Err(Refusal::FigureOutOfRange),
        }
    }
}

// The figure that the sense goes by.
impl From<Sense> for u8 {
    ghost from_gives = { λ sense figure. figure ≡ figure_of sense };

    fn from(sense: Sense) -> u8 {
        match sense {
            Sense::Upright => 0,
            Sense::Inverted => 1,
        }
    }
}

impl Sense {
    fn turn_pulse(self, pulse: Pulse) -> Pulse
        ensures { result ≡ turned_pulse self pulse }
    {
        match self {
            Sense::Upright => pulse,
            Sense::Inverted => pulse.opposite(),
        }
    }

    fn turn_number(self, number: i64) -> i64
        requires { unsigned_abs number ≤ largest }
        ensures { result ≡ turned_number self number }
    {
        match self {
            Sense::Upright => number,
            Sense::Inverted => -number,
        }
    }
}

// The turn layer: upright it passes everything; inverted it negates pulse, weight and residue.
#[derive(Clone, Copy, PartialEq, Eq, Debug, Drop)]
pub struct Turn<U> {
    sense: Sense,
    below: U,
}

impl<U: Unit> Turn<U> {
    // The unit in a turn layer of this sense.
    pub fn new(sense: Sense, unit: U) -> Turn<U>
        ensures { (result.sense ≡ sense) × (result.below ≡ unit) }
    {
        Turn { sense, below: unit }
    }

    // The same by the figure of the sense; refused where no sense has it, and the unit comes back: so it takes the figure as a
    // number, and is no `TryFrom`.
    pub fn of_figure(figure: u8, unit: U) -> Result<Turn<U>, Returned<U>>
        ensures { Enclosed (λ t. t.below) (λ t. figure_of t.sense ≡ figure) ((s : Sense) → figure_of s ≢ figure) unit result }
    {
        match Sense::try_from(figure) {
            Ok(sense) => Ok(Turn::new(sense, unit)),
            Err(refusal) => Err(Returned { unit, refusal }),
        }
    }
}

impl<U: Unit> Unit for Turn<U> {
    ghost figures = { λ t. turned t.sense (U.Unit.figures t.below) };

    ghost lawful = { λ t. turned_lawful t.sense _ (U.Unit.lawful t.below) };

    fn step(&mut self, x: Pulse, tally: Tally) -> Option<Pulse> {
        let pulse = self.below.step(x, tally)?;
        Some(self.sense.turn_pulse(pulse))
    }

    fn accepts(&self, tally: Tally) -> bool {
        self.below.accepts(tally)
    }

    fn position(&self) -> i64 {
        self.below.position()
    }

    fn weight(&self) -> i64 {
        self.sense.turn_number(self.below.weight())
    }

    fn residue(&self) -> i64 {
        self.sense.turn_number(self.below.residue())
    }

    fn modulus(&self) -> u64 {
        self.below.modulus()
    }
}
