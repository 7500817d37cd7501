ghost use Rattle.std.specs.Prelude.{◌≤◌};
ghost use Rattle.layers.specs.Dividers.{divided};
ghost use Rattle.layers.specs.Houses.{make_figures, house_figures};
ghost use Rattle.layers.specs.Turns.{turned};
ghost use Rattle.makes.specs.Integrators.{integrator, Allowed as AllowedIntegrator};
ghost use Rattle.makes.specs.Servos.{servo, Allowed as AllowedServo};
ghost use Rattle.unit.specs.Making.{Made};
ghost use Rattle.std.proofs.Common.{rules};

use crate::divider::Divider;
use crate::turn::{Sense, Turn};
use makes::integrator::Integrator;
use makes::servo::Servo;
use unit::pulse::Pulse;
use unit::refusal::Refusal;
use unit::tally::Tally;
use unit::unit::Unit;

// The makes that a house unit may hold: a closed list, which lies in the rack itself, where a `dyn` would need a place elsewhere.
#[derive(Clone, Copy, PartialEq, Eq, Debug)]
pub enum Make {
    Integrator(Integrator),
    Servo(Servo),
}

// The unit that a patch text speaks of.
pub type HouseUnit = Turn<Divider<Make>>;

// Two makers, for each make has figures of its own; what they share is `housed`.

// A house unit round an integrator; refused where one of the figures is out of its range.
pub fn house_integrator(
    length: u8,
    position: i64,
    residue: i64,
    divisor: u8,
    sense: Sense,
) -> Result<HouseUnit, Refusal>
    ensures { Made house_figures (AllowedIntegrator length position residue × (1 ≤ divisor)) (turned sense (divided divisor 0 (integrator length position residue))) result }
{
    let unit = Integrator::new(length, position, residue)?;
    housed(Make::Integrator(unit), divisor, sense)
}

// A house unit round a servo; refused where one of the figures is out of its range.
pub fn house_servo(
    limit: u32,
    position: i64,
    divisor: u8,
    sense: Sense,
) -> Result<HouseUnit, Refusal>
    ensures { Made house_figures (AllowedServo limit position × (1 ≤ divisor)) (turned sense (divided divisor 0 (servo limit position))) result }
{
    let unit = Servo::new(limit, position)?;
    housed(Make::Servo(unit), divisor, sense)
}

fn housed(make: Make, divisor: u8, sense: Sense) -> Result<HouseUnit, Refusal>
    ensures { Made house_figures (1 ≤ divisor) (turned sense (divided divisor 0 (make_figures make))) result }
{
    let divider = Divider::new(divisor, make)?;
    Ok(Turn::new(sense, divider))
}

impl Unit for Make {
    ghost figures = { make_figures };

    ghost lawful = { Prim.search rules };

    fn step(&mut self, x: Pulse, tally: Tally) -> Option<Pulse> {
        match self {
            Make::Integrator(unit) => unit.step(x, tally),
            Make::Servo(unit) => unit.step(x, tally),
        }
    }

    fn accepts(&self, tally: Tally) -> bool {
        match self {
            Make::Integrator(unit) => unit.accepts(tally),
            Make::Servo(unit) => unit.accepts(tally),
        }
    }

    fn position(&self) -> i64 {
        match self {
            Make::Integrator(unit) => unit.position(),
            Make::Servo(unit) => unit.position(),
        }
    }

    fn weight(&self) -> i64 {
        match self {
            Make::Integrator(unit) => unit.weight(),
            Make::Servo(unit) => unit.weight(),
        }
    }

    fn residue(&self) -> i64 {
        match self {
            Make::Integrator(unit) => unit.residue(),
            Make::Servo(unit) => unit.residue(),
        }
    }

    fn modulus(&self) -> u64 {
        match self {
            Make::Integrator(unit) => unit.modulus(),
            Make::Servo(unit) => unit.modulus(),
        }
    }
}
