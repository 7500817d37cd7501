ghost use Rattle.std.specs.Prelude.{◌≡◌, ◌*◌, ◌<◌, ◌≤◌, Some, MatchOption, unsigned_abs};
ghost use Rattle.net.specs.Records.{emptied, cleared, with_x, with_y, Emitted, FirstFree};
ghost use Rattle.net.specs.Limits.{most_ticks};
ghost use Rattle.unit.specs.Sizes.{largest};

use unit::pulse::Pulse;
use wires::tap::Tap;

// What the net keeps for one unit: its taps, the pulse on its line, its net pulses and its work.
#[derive(Clone, Copy, PartialEq, Eq, Debug)]
pub struct Record {
    pub x: Option<Tap>,
    pub y: [Option<Tap>; 4],
    pub line: Pulse,
    pub net: i64,
    pub work: i64,
}

impl Record {
    pub const BLANK: Record = Record {
        x: None,
        y: [None; 4],
        line: Pulse::Zero,
        net: 0,
        work: 0,
    };

    // The record after a step that emitted this pulse and did this work. For the machine alone: no sum is larger.
    pub fn emitted(self, pulse: Pulse, work: i64) -> Record
        requires net { unsigned_abs self.net ≤ most_ticks }
        requires done { unsigned_abs self.work ≤ largest * most_ticks }
        requires more { unsigned_abs work ≤ largest }
        ensures { Emitted self pulse work result }
    {
        Record {
            line: pulse,
            net: self.net + i64::from(i8::from(pulse)),
            work: self.work + work,
            ..self
        }
    }

    // The taps alone: nothing on the line, nothing emitted, no work done.
    pub fn emptied(self) -> Record
        ensures { result ≡ emptied self }
    {
        Record {
            line: Pulse::Zero,
            net: 0,
            work: 0,
            ..self
        }
    }

    // All but the taps.
    pub fn cleared(self) -> Record
        ensures { result ≡ cleared self }
    {
        Record {
            x: None,
            y: [None; 4],
            ..self
        }
    }

    pub fn with_x(self, tap: Tap) -> Record
        ensures { result ≡ with_x self tap }
    {
        Record {
            x: Some(tap),
            ..self
        }
    }

    // The tap at the y place k.
    pub fn with_y(mut self, k: usize, tap: Tap) -> Record
        requires { k < 4 }
        ensures { result ≡ with_y self k tap }
    {
        self.y[k] = Some(tap);
        self
    }

    // The first y place that has no tap.
    pub fn free_y(&self) -> Option<usize>
        ensures { FirstFree self.now.y result }
    {
        self.y.iter().position(|tap| tap.is_none())
    }
}
