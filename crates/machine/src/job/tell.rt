ghost use Rattle.std.specs.Prelude.{◌≡◌, ◌<◌, length};
ghost use Rattle.calls.specs.Readings.{Reads, ReadAnswers, RowAnswers, fields_of};
ghost use Rattle.net.specs.Limits.{most_units};
ghost use Rattle.rows.specs.Rows.{RowWritten};

use crate::checks::{belongs, place_of};
use crate::job::SetJob;
use calls::reading::Reading;
use net::net::Net;
use rows::write_row;
use unit::refusal::Refusal;
use unit::unit::Unit;

impl SetJob {
    // The figures of one unit.
    pub fn read<U: Unit>(&self, rack: &[U], net: &Net, unit: u8) -> Result<Reading, Refusal>
        ensures { ReadAnswers U.figures self.now.units rack.now net.now unit result }
    {
        belongs(self.units, rack, net)?;
        let place = place_of(unit, self.units)?;
        Ok(reading(rack, net, place))
    }

    // Writes the row of one unit at the start of the buffer, and answers how many bytes it has.
    pub fn row<U: Unit>(
        &self,
        rack: &[U],
        net: &Net,
        unit: u8,
        buffer: &mut [u8],
    ) -> Result<usize, Refusal>
        ensures { RowAnswers U.figures self.now.units rack.now net.now unit buffer.old result buffer.new }
    {
        let told = self.read(rack, net, unit)?;
        row_of(unit, told, buffer).ok_or(Refusal::BufferTooShort)
    }
}

// What there is to tell of the unit at a place of the rack.
fn reading<U: Unit>(rack: &[U], net: &Net, place: usize) -> Reading
    requires there { place < length rack.now }
    requires few { place < most_units }
    ensures { Reads U.figures rack.now net.now place result }
{
    let record = net.record(place);
    Reading {
        ticks: net.ticks(),
        position: rack[place].position(),
        residue: rack[place].residue(),
        weight: rack[place].weight(),
        net: record.net,
        work: record.work,
        line: record.line,
    }
}

fn row_of(unit: u8, told: Reading, buffer: &mut [u8]) -> Option<usize>
    ensures { RowWritten (fields_of unit told) buffer.old buffer.new result }
{
    let fields = [
        i64::from(told.ticks),
        i64::from(unit),
        told.position,
        told.residue,
        told.net,
        told.work,
    ];
    write_row(&fields, buffer)
}
