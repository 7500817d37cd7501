ghost use Rattle.std.specs.Prelude.{◌≡◌, ◌<◌, is_some, None, slice_index_or};
ghost use Rattle.net.specs.Bounds.{NetWithin, WorkWithin, Wired};
ghost use Rattle.net.specs.Changes.{Empty, UnitAdded, Stored, Waits, Reset, TickCounted};
ghost use Rattle.net.specs.Limits.{most_ticks, most_units};

use crate::net::Net;
use crate::record::Record;
use crate::table::Table;
use unit::pulse::Pulse;

// For the jobs alone, which ask first whether a change may be made.
impl Net {
    // No units, no taps, nothing on any line.
    pub fn empty() -> Net
        ensures { Empty result }
    {
        Net {
            count: 0,
            ticks: 0,
            table: Table::blank(),
            outside: [None; 4],
        }
    }

    // One unit more, without taps.
    pub fn add_unit(&mut self)
        requires { self.old.count < most_units }
        ensures { UnitAdded self.old self.new }
    {
        self.table.put(usize::from(self.count), Record::BLANK);
        self.count += 1;
    }

    // Another record at place i.
    pub fn store(&mut self, i: usize, record: Record)
        requires there { i < most_units }
        requires net { NetWithin self.old.ticks «record» }
        requires work { WorkWithin self.old.ticks «record» }
        requires wired { Wired self.old.count «record» }
        ensures { Stored self.old i «record» self.new }
    {
        self.table.put(i, record);
    }

    // Whether a pulse waits on the outside line l.
    pub fn waits(&self, l: usize) -> bool
        requires { l < 4 }
        ensures { result ≡ is_some (slice_index_or self.now.outside l None) }
    {
        self.outside[l].is_some()
    }

    // A pulse put on the outside line l.
    pub fn wait(&mut self, l: usize, pulse: Pulse)
        requires { l < 4 }
        ensures { Waits self.old l pulse self.new }
    {
        self.outside[l] = Some(pulse);
    }

    // The taps alone.
    pub fn reset(&mut self)
        ensures { Reset self.old self.new }
    {
        self.table.empty();
        self.ticks = 0;
        self.outside = [None; 4];
    }

    // One tick more; what waited on the outside lines has been given.
    pub fn count_tick(&mut self)
        requires { self.old.ticks < most_ticks }
        ensures { TickCounted self.old self.new }
    {
        self.ticks += 1;
        self.outside = [None; 4];
    }
}
