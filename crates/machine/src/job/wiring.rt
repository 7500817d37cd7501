ghost use Rattle.calls.specs.Calls.{PlugAnswers, ClearAnswers, WithTap};

use crate::checks::{belongs, place_of};
use crate::job::OpenJob;
use net::net::Net;
use net::record::Record;
use unit::refusal::Refusal;
use wires::source::Source;
use wires::tap::{Input, Sign, Tap};

impl OpenJob {
    // One tap more of one unit. Sign and source come as numbers, since it is this call that refuses those that name nothing.
    pub fn plug<U>(
        &self,
        rack: &[U],
        net: &mut Net,
        unit: u8,
        input: Input,
        sign: u8,
        source: u8,
    ) -> Result<(), Refusal>
        ensures { PlugAnswers self.now.units rack.now net.old unit input sign source result net.new }
    {
        belongs(self.units, rack, net)?;
        let sign = Sign::try_from(sign)?;
        let source = Source::of(source, self.units).ok_or(Refusal::NoSuchSource)?;
        let place = place_of(unit, self.units)?;
        let tap = Tap { sign, source };
        let record = with_tap(net.record(place), input, tap).ok_or(Refusal::TapTaken)?;
        net.store(place, record);
        Ok(())
    }

    // Takes all taps of one unit away.
    pub fn clear<U>(&self, rack: &[U], net: &mut Net, unit: u8) -> Result<(), Refusal>
        ensures { ClearAnswers self.now.units rack.now net.old unit result net.new }
    {
        belongs(self.units, rack, net)?;
        let place = place_of(unit, self.units)?;
        let record = net.record(place).cleared();
        net.store(place, record);
        Ok(())
    }
}

// The record with one tap more, if there is a place for it.
fn with_tap(record: Record, input: Input, tap: Tap) -> Option<Record>
    ensures { WithTap input «record» tap result }
{
    match input {
        Input::X if record.x.is_some() => None,
        Input::X => Some(record.with_x(tap)),
        Input::Y => record.free_y().map(|k| record.with_y(k, tap)),
    }
}
