ghost use Rattle.std.specs.Prelude.{◌≡◌, ◌<◌, None, slice_index_or};
ghost use Rattle.net.specs.Limits.{most_units};
ghost use Rattle.net.specs.Records.{record_at};
ghost use Rattle.net.specs.Signals.{or_zero, given, delivered, sum, InputsOf};

use crate::inputs::Inputs;
use crate::net::Net;
use crate::record::Record;
use unit::pulse::Pulse;
use unit::tally::Tally;
use wires::source::Source;
use wires::tap::Tap;

impl Net {
    pub fn ticks(&self) -> u32
        ensures { result ≡ self.now.ticks }
    {
        self.ticks
    }

    pub fn count(&self) -> u8
        ensures { result ≡ self.now.count }
    {
        self.count
    }

    pub fn record(&self, i: usize) -> Record
        requires { i < most_units }
        ensures { result ≡ record_at self.now.table.records i }
    {
        *self.table.get(i)
    }

    // What waits on the outside line l.
    fn waiting(&self, l: u8) -> Pulse
        ensures { result ≡ or_zero (slice_index_or self.now.outside l None) }
    {
        match self.outside.get(usize::from(l)) {
            Some(Some(pulse)) => *pulse,
            _ => Pulse::Zero,
        }
    }

    // What a source gives.
    fn given(&self, source: Source) -> Pulse
        ensures { result ≡ given self.now source }
    {
        match source {
            Source::Place(j) => self.table.line(usize::from(j)),
            Source::Outside(l) => self.waiting(l),
            Source::Clock => Pulse::Plus,
        }
    }

    // What a tap delivers, or nothing without one.
    fn delivered(&self, tap: Option<Tap>) -> Pulse
        ensures { result ≡ delivered self.now tap }
    {
        tap.map_or(Pulse::Zero, |tap| tap.sign.times(self.given(tap.source)))
    }

    // The sum of what the y taps deliver.
    fn tally(&self, y: &[Option<Tap>; 4]) -> Tally
        ensures { result.value ≡ sum self.now y.now }
    {
        // Four calls: with `y.map(..)` a tick of two units takes 8 % longer.
        let [a, b, c, d] = y;
        Tally::from([
            self.delivered(*a),
            self.delivered(*b),
            self.delivered(*c),
            self.delivered(*d),
        ])
    }

    // The inputs of the unit at place i, as the lines stand.
    pub fn inputs(&self, i: usize) -> Inputs
        requires { i < most_units }
        ensures { InputsOf self.now i result }
    {
        let record = self.table.get(i);
        Inputs {
            x: self.delivered(record.x),
            tally: self.tally(&record.y),
        }
    }
}
