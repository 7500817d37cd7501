ghost use Rattle.std.specs.Prelude.{◌≡◌, ℕ, ◌<◌, length, replicate, slice_set};
ghost use Rattle.net.specs.Limits.{most_units};
ghost use Rattle.net.specs.Records.{record_at, blank};
ghost use Rattle.net.specs.Tables.{Emptied};

use crate::record::Record;
use unit::pulse::Pulse;

// The records of all places of a rack, whether a unit stands there or not: an array with a put of its own, as the rules want it.
#[derive(Clone, Copy, PartialEq, Eq, Debug)]
pub struct Table {
    records: [Record; 64],
    ghost full: { length records ≡ most_units },
}

impl Table {
    pub fn blank() -> Table
        ensures { result.records ≡ replicate most_units blank }
    {
        Table {
            records: [Record::BLANK; 64],
        }
    }

    // A place stays a number below 64, without a type of its own: the rack is indexed by it too, and needs its own bound.
    pub fn get(&self, i: usize) -> &Record
        requires { i < most_units }
        ensures { result.now ≡ record_at self.now.records i }
    {
        &self.records[i]
    }

    // The pulse on the line of the unit at place i, which is nothing past the last place.
    pub fn line(&self, i: usize) -> Pulse
        ensures { result ≡ (record_at self.now.records i).line }
    {
        self.records
            .get(i)
            .map_or(Pulse::Zero, |record| record.line)
    }

    pub fn put(&mut self, i: usize, record: Record)
        requires { i < most_units }
        ensures { self.new.records ≡ slice_set self.old.records i «record» }
    {
        self.records[i] = record;
    }

    // Every record emptied in place.
    pub fn empty(&mut self)
        ensures { Emptied self.old.records most_units self.new.records }
    {
        for record in self.records.iter_mut() {
            *record = record.emptied();
        }
    }
}
