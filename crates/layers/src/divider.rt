ghost use Rattle.std.specs.Prelude.{◌≡◌, ◌*◌, ◌<◌, ◌≤◌, pos, ◌+ℤ◌, ⊤, unsigned_abs};
ghost use Rattle.layers.specs.Dividers.{divided, Counted};
ghost use Rattle.layers.specs.Laws.{divided_lawful};
ghost use Rattle.unit.specs.Figures.{told_number};
ghost use Rattle.unit.specs.Making.{Enclosed};
ghost use Rattle.unit.specs.Sizes.{largest};

use makes::band::divide;
use std::alloc::AllocError;
use unit::pulse::Pulse;
use unit::refusal::{Refusal, Returned};
use unit::tally::Tally;
use unit::unit::{LARGEST, Unit};

// The divider: emits one pulse for `divisor` pulses of the unit below, and counts what it holds back.
#[derive(Copy, PartialEq, Eq, Debug, Drop)]
pub struct Divider<U> {
    divisor: u8,
    count: u8,
    below: U,
    ghost least: { 1 ≤ divisor },
    ghost counted: { count < divisor },
}

// `Copy` asks for a `Clone`, and none can be derived for a generic struct with a ghost field.
impl<U: Copy> Clone for Divider<U> {
    ghost is_clone = { λ d e. e ≡ d };

    ghost is_infallible = { λ _. ⊤ };

    fn clone(&self) -> Result<Divider<U>, AllocError> {
        Ok(*self)
    }
}

impl<U: Unit> Divider<U> {
    // The unit behind a divider by 1 to 255; refused for 0, and the unit comes back.
    pub fn new(divisor: u8, unit: U) -> Result<Divider<U>, Returned<U>>
        ensures { Enclosed (λ d. d.below) (λ d. (d.divisor ≡ divisor) × (d.count ≡ 0)) (divisor ≡ 0) unit result }
    {
        if divisor < 1 {
            return Err(Returned {
                unit,
                refusal: Refusal::FigureOutOfRange,
            });
        }
        Ok(Divider {
            divisor,
            count: 0,
            below: unit,
        })
    }
}

// The pulse that goes on and the count that stays, after a pulse from below.
fn counted(count: u8, pulse: Pulse, divisor: u8) -> (Pulse, u8)
    requires { count < divisor }
    ensures { Counted divisor count pulse result.0 result.1 }
{
    let held = i64::from(count) + i64::from(i8::from(pulse));
    let (emitted, rest) = divide(held, u32::from(divisor), 0);
    (emitted, rest as u8)
}

// A modulus as it is told.
fn told(modulus: u64) -> u64
    ensures { result ≡ told_number modulus }
{
    if modulus > LARGEST { 0 } else { modulus }
}

// The residue below, and a whole modulus for each pulse that is held back.
fn with_count(residue: i64, modulus: u64, count: u8) -> i64
    requires short { unsigned_abs residue ≤ largest }
    requires held { modulus * count ≤ largest }
    ensures { result ≡ residue +ℤ pos (modulus * count) }
{
    let held = modulus * u64::from(count);
    residue + held as i64
}

impl<U: Unit> Unit for Divider<U> {
    ghost figures = { λ d. divided d.divisor d.count (U.Unit.figures d.below) };

    ghost lawful = { λ d. divided_lawful d.divisor d.count _ d.counted (U.Unit.lawful d.below) };

    fn step(&mut self, x: Pulse, tally: Tally) -> Option<Pulse> {
        let pulse = self.below.step(x, tally)?;
        let (emitted, count) = counted(self.count, pulse, self.divisor);
        self.count = count;
        Some(emitted)
    }

    fn accepts(&self, tally: Tally) -> bool {
        self.below.accepts(tally)
    }

    fn position(&self) -> i64 {
        self.below.position()
    }

    fn weight(&self) -> i64 {
        self.below.weight()
    }

    fn residue(&self) -> i64 {
        if self.modulus() == 0 {
            return 0;
        }
        with_count(self.below.residue(), self.below.modulus(), self.count)
    }

    fn modulus(&self) -> u64 {
        told(self.below.modulus() * u64::from(self.divisor))
    }
}
