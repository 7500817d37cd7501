ghost use Rattle.std.specs.Prelude.{◌≤◌, unsigned_abs};
ghost use Rattle.makes.specs.Limits.{largest_limit};
ghost use Rattle.unit.specs.Making.{Made};
ghost use Rattle.std.proofs.Common.{rules};

use crate::band::renew;
use crate::range::moved;
use unit::pulse::Pulse;
use unit::refusal::Refusal;
use unit::tally::Tally;
use unit::unit::Unit;

// A servo: its weight is the sign of its position, so it drives that position towards 0 when its pulse is fed back.
#[derive(Clone, Copy, PartialEq, Eq, Debug)]
pub struct Servo {
    limit: u32,
    position: i64,
    ghost least: { 1 ≤ limit },
    ghost most: { limit ≤ largest_limit },
    ghost ranged: { unsigned_abs position ≤ limit },
}

impl Servo {
    ghost use Rattle.makes.specs.Servos.{meaning, servo, Allowed};

    pub const LARGEST: u32 = 16_777_216;

    // A servo of this limit and position; refused where one of them is out of its range.
    pub fn new(limit: u32, position: i64) -> Result<Servo, Refusal>
        ensures { Made meaning (Allowed limit position) (servo limit position) result }
    {
        if limit < 1 || limit > Self::LARGEST {
            return Err(Refusal::FigureOutOfRange);
        }
        let end = i64::from(limit);
        if position < -end || position > end {
            return Err(Refusal::FigureOutOfRange);
        }
        Ok(Servo { limit, position })
    }
}

impl Unit for Servo {
    ghost use Rattle.makes.specs.Servos.{meaning};

    ghost figures = { meaning };

    ghost lawful = { Prim.search rules };

    fn step(&mut self, x: Pulse, tally: Tally) -> Option<Pulse> {
        let position = moved(self.position, tally, self.limit)?;
        // the band has one number, so the residue stays 0
        let (pulse, _) = renew(0, position.signum(), x, 1);
        self.position = position;
        Some(pulse)
    }

    fn accepts(&self, tally: Tally) -> bool {
        moved(self.position, tally, self.limit).is_some()
    }

    fn position(&self) -> i64 {
        self.position
    }

    fn weight(&self) -> i64 {
        self.position.signum()
    }

    fn residue(&self) -> i64 {
        0
    }

    fn modulus(&self) -> u64 {
        1
    }
}
