ghost use Rattle.std.specs.Prelude.{◌≡◌, MatchOption};
ghost use Rattle.calls.specs.Calls.{FeedAsked, FeedAnswers, TickAnswers, Chain, Ended};
ghost use Rattle.unit.specs.declared.pulse.Pulse.{Pulse};

use crate::checks::belongs;
use crate::job::{OpenJob, SetJob};
use net::inputs::Inputs;
use net::net::Net;
use ticks::passes::{gather, step_all};
use unit::pulse::Pulse;
use unit::refusal::Refusal;
use unit::tally::Tally;
use unit::unit::Unit;

// No job makes more ticks than these.
pub const MOST_TICKS: u32 = 16_777_216;

// How a run ended: the ticks made, and the refusal that stopped it, if any. No `Result`: a refused run has made ticks too.
#[derive(Clone, Copy, PartialEq, Eq, Debug)]
pub struct Ran {
    pub made: u32,
    pub refusal: Option<Refusal>,
}

impl SetJob {
    // Puts a pulse on an outside line, for the next tick to take. Line and pulse come as numbers, since it is this call that
    // refuses those that are none.
    pub fn feed<U>(&self, rack: &[U], net: &mut Net, line: u8, value: i8) -> Result<(), Refusal>
        ensures { FeedAnswers self.now.units rack.now net.old line value result net.new }
    {
        belongs(self.units, rack, net)?;
        let pulse = feed_of(line, value).ok_or(Refusal::NoSuchFeed)?;
        if net.waits(line as usize) {
            return Err(Refusal::PulseWaiting);
        }
        net.wait(line as usize, pulse);
        Ok(())
    }

    // One tick of the whole rack: all units step, or none does.
    pub fn tick<U: Unit>(&self, rack: &mut [U], net: &mut Net) -> Result<(), Refusal>
        ensures { TickAnswers U.figures self.now.units rack.old net.old result rack.new net.new }
    {
        belongs(self.units, rack, net)?;
        if net.ticks() >= MOST_TICKS {
            return Err(Refusal::TicksSpent);
        }
        // an array and no vector, which would count again, tick by tick, what the net's count says
        let none = Inputs {
            x: Pulse::Zero,
            tally: Tally::from(Pulse::Zero),
        };
        let mut inputs = [none; 64];
        if let Some(unit) = gather(rack, net, &mut inputs) {
            return Err(Refusal::LeavesRange { unit });
        }
        step_all(rack, net, &inputs);
        Ok(())
    }

    // So many ticks, or those before the first that is refused.
    pub fn run<U: Unit>(&self, rack: &mut [U], net: &mut Net, ticks: u32) -> Ran
        ensures chain { Chain U.figures self.now.units rack.old net.old result.made rack.new net.new }
        ensures ended { Ended U.figures self.now.units ticks result.made result.refusal rack.new net.new }
    {
        if let Err(refusal) = belongs(self.units, rack, net) {
            return Ran {
                made: 0,
                refusal: Some(refusal),
            };
        }
        // no index: the ticks made so far are the answer where one is refused
        for made in 0..ticks {
            if let Err(refusal) = self.tick(rack, net) {
                return Ran {
                    made,
                    refusal: Some(refusal),
                };
            }
        }
        Ran {
            made: ticks,
            refusal: None,
        }
    }

    // The job open again, with units and taps as they are.
    pub fn reopen(self) -> OpenJob
        ensures { result.units ≡ self.units }
    {
        OpenJob { units: self.units }
    }
}

// The pulse that a feed asks for, if there is such a line and such a pulse.
fn feed_of(line: u8, value: i8) -> Option<Pulse>
    ensures { MatchOption result ((z : Pulse) → FeedAsked line value z → ⊥) (FeedAsked line value) }
{
    match value {
        1 if line < 4 => Some(Pulse::Plus),
        -1 if line < 4 => Some(Pulse::Minus),
        _ => None,
    }
}
