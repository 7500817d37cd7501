ghost use Rattle.std.specs.Prelude.{◌<◌, length};
ghost use Rattle.ticks.specs.Racks.{AcceptsAt, MovesAt};

use unit::pulse::Pulse;
use unit::tally::Tally;
use unit::unit::Unit;

// The rack is lent at each call as a slice of units of one make. For the second pass alone, which knows that the place is there.

// A step of the unit at place i that is known to be accepted.
pub fn step_at<U: Unit>(rack: &mut [U], i: usize, x: Pulse, tally: Tally) -> Pulse
    requires there { i < length rack.old }
    requires accepted { AcceptsAt U.figures rack.old i tally.value }
    ensures { MovesAt U.figures rack.old i x tally.value result rack.new }
{
    rack[i].step(x, tally).unwrap()
}
