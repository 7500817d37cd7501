ghost use Rattle.std.specs.Prelude.{◌≡◌, ◌≤◌, length};
ghost use Rattle.calls.specs.Calls.{PlaceAnswers, FirstUntold};
ghost use Rattle.machine.specs.Checks.{NextPlace};
ghost use Rattle.machine.specs.Setting.{MayBeSet, SetAnswers, SetLaw};
ghost use Rattle.net.specs.Changes.{Empty};

use crate::checks::belongs;
use crate::job::{NotSet, OpenJob, SetJob};
use net::net::Net;
use unit::refusal::{Refusal, Returned};
use unit::unit::Unit;

// A job without units, and its empty net.
pub fn open() -> (OpenJob, Net)
    ensures job { result.0.units ≡ 0 }
    ensures net { Empty result.1 }
{
    (OpenJob { units: 0 }, Net::empty())
}

impl OpenJob {
    // The next unit of the job, in its place of the rack; a refused unit comes back.
    pub fn place<U: Unit + Drop>(
        &mut self,
        rack: &mut [U],
        net: &mut Net,
        unit: U,
    ) -> Result<(), Returned<U>>
        ensures { PlaceAnswers self.old.units rack.old net.old unit result self.new.units rack.new net.new }
    {
        // a match, since the unit goes into the rack or back
        match self.next_place(rack, net) {
            Ok(place) => {
                rack[place] = unit;
                net.add_unit();
                self.units += 1;
                Ok(())
            }
            Err(refusal) => Err(Returned { unit, refusal }),
        }
    }

    // The place in the rack of the next unit.
    fn next_place<U>(&self, rack: &[U], net: &Net) -> Result<usize, Refusal>
        ensures { NextPlace self.now.units rack.now net.now result }
    {
        belongs(self.units, rack, net)?;
        let place = self.units as usize;
        if place >= 64 || place >= rack.len() {
            return Err(Refusal::RackFull);
        }
        Ok(place)
    }

    // Sets the job: nothing on any line, nothing counted, the units as they are. A refused job comes back. Whatever calls
    // follow, the law of runs holds after each of them.
    pub fn set<U: Unit>(self, rack: &[U], net: &mut Net) -> Result<SetJob, NotSet>
        ensures answers { SetAnswers U.figures self.units rack.now net.old result net.new }
        ensures law { SetLaw U.figures self.units rack.now result net.new }
    {
        // no `?`, since the job goes back with the refusal
        if let Err(refusal) = self.may_be_set(rack, net) {
            return Err(NotSet { job: self, refusal });
        }
        net.reset();
        Ok(SetJob { units: self.units })
    }

    fn may_be_set<U: Unit>(&self, rack: &[U], net: &Net) -> Result<(), Refusal>
        ensures { MayBeSet U.figures self.now.units rack.now net.now result }
    {
        belongs(self.units, rack, net)?;
        if self.units == 0 {
            return Err(Refusal::NoUnits);
        }
        match first_untold(rack, self.units) {
            Some(unit) => Err(Refusal::ModulusUntold { unit }),
            None => Ok(()),
        }
    }
}

// The lowest unit of the job that tells the modulus 0, if any.
fn first_untold<U: Unit>(rack: &[U], units: u8) -> Option<u8>
    requires { units ≤ length rack.now }
    ensures { FirstUntold U.figures units rack.now result }
{
    rack[..units as usize]
        .iter()
        .position(|unit| unit.modulus() == 0)
        .map(|place| place as u8)
}
