ghost use Rattle.std.specs.Prelude.{◌≡◌, ◌<◌, ◌≤◌, length, IfNone};
ghost use Rattle.ticks.specs.Passes.{Gathered, RoomAt, AdvancesAt};
ghost use Rattle.ticks.specs.Ticks.{AllAccept, FirstLeaving, Ticked};
ghost use Rattle.net.specs.Limits.{most_units, most_ticks};
ghost use Rattle.ticks.specs.Racks.{AcceptsAt};

use crate::rack::step_at;
use net::inputs::Inputs;
use net::net::Net;
use unit::unit::Unit;

// The first pass: gathers the inputs of all units, as the lines stand, and answers the lowest unit that would leave its
// range, if any.
pub fn gather<U: Unit>(rack: &[U], net: &Net, inputs: &mut [Inputs; 64]) -> Option<u8>
    requires room { net.now.count ≤ length rack.now }
    ensures first { FirstLeaving U.figures rack.now net.now result }
    ensures gathered { IfNone result (Gathered net.now inputs.new net.now.count) }
{
    for (i, unit) in rack[..net.count() as usize].iter().enumerate() {
        let given = net.inputs(i);
        if !unit.accepts(given.tally) {
            return Some(i as u8);
        }
        // by index: in a `zip` of `iter_mut` a proof knows only how many there are
        inputs[i] = given;
    }
    None
}

// One step of the second pass: the unit at place i steps with its inputs, and its record follows.
fn advance<U: Unit>(rack: &mut [U], net: &mut Net, i: usize, given: Inputs)
    requires there { i < length rack.old }
    requires few { i < most_units }
    requires accepted { AcceptsAt U.figures rack.old i given.tally.value }
    requires room { RoomAt net.old i }
    ensures { AdvancesAt U.figures rack.old net.old i given rack.new net.new }
{
    let pulse = step_at(rack, i, given.x, given.tally);
    let work = given.x.times(rack[i].weight());
    let record = net.record(i).emitted(pulse, work);
    net.store(i, record);
}

// The second pass: counts the tick, and every unit steps with its inputs.
pub fn step_all<U: Unit>(rack: &mut [U], net: &mut Net, inputs: &[Inputs; 64])
    requires room { net.old.count ≤ length rack.old }
    requires early { net.old.ticks < most_ticks }
    requires gathered { Gathered net.old inputs.now net.old.count }
    requires accepted { AllAccept U.figures rack.old net.old net.old.count }
    ensures { Ticked U.figures rack.old net.old rack.new net.new }
{
    net.count_tick();
    for (i, given) in inputs[..net.count() as usize].iter().enumerate() {
        advance(rack, net, i, *given);
    }
}
