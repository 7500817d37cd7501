ghost use Rattle.std.specs.Prelude.{◌≡◌, ◌^◌, ◌≤◌, pos, ◌≤ℤ◌, ◌<ℤ◌, unsigned_abs};
ghost use Rattle.makes.specs.Limits.{longest};
ghost use Rattle.unit.specs.Making.{Made};
ghost use Rattle.std.proofs.Common.{rules};

use crate::band::renew;
use crate::range::moved;
use unit::pulse::Pulse;
use unit::refusal::Refusal;
use unit::tally::Tally;
use unit::unit::Unit;

// An integrator: its weight is its position, so it adds up position times x pulse.
#[derive(Clone, Copy, PartialEq, Eq, Debug)]
pub struct Integrator {
    // the modulus is 2 to the length
    length: u8,
    position: i64,
    residue: i64,
    ghost least: { 1 ≤ length },
    ghost most: { length ≤ longest },
    ghost ranged: { unsigned_abs position ≤ 2 ^ length },
    ghost above: { pos 0 ≤ℤ residue },
    ghost below: { residue <ℤ pos (2 ^ length) },
}

impl Integrator {
    ghost use Rattle.makes.specs.Integrators.{meaning, integrator, Allowed};

    pub const LONGEST: u8 = 24;

    // An integrator of this length, position and residue; refused where one of them is out of its range.
    pub fn new(length: u8, position: i64, residue: i64) -> Result<Integrator, Refusal>
        ensures { Made meaning (Allowed length position residue) (integrator length position residue) result }
    {
        if length < 1 || length > Self::LONGEST {
            return Err(Refusal::FigureOutOfRange);
        }
        let modulus = i64::from(modulus_of(length));
        if position < -modulus || position > modulus || residue < 0 || residue >= modulus {
            return Err(Refusal::FigureOutOfRange);
        }
        Ok(Integrator {
            length,
            position,
            residue,
        })
    }
}

fn modulus_of(length: u8) -> u32
    requires { length ≤ longest }
    ensures { result ≡ 2 ^ length }
{
    1 << length
}

impl Unit for Integrator {
    ghost use Rattle.makes.specs.Integrators.{meaning};

    ghost figures = { meaning };

    ghost lawful = { Prim.search rules };

    fn step(&mut self, x: Pulse, tally: Tally) -> Option<Pulse> {
        let modulus = modulus_of(self.length);
        let position = moved(self.position, tally, modulus)?;
        let (pulse, residue) = renew(self.residue, position, x, modulus);
        self.position = position;
        self.residue = residue;
        Some(pulse)
    }

    fn accepts(&self, tally: Tally) -> bool {
        moved(self.position, tally, modulus_of(self.length)).is_some()
    }

    fn position(&self) -> i64 {
        self.position
    }

    fn weight(&self) -> i64 {
        self.position
    }

    fn residue(&self) -> i64 {
        self.residue
    }

    fn modulus(&self) -> u64 {
        u64::from(modulus_of(self.length))
    }
}
