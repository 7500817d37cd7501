use unit::pulse::Pulse;
use unit::tally::Tally;

// What a unit is given in one tick.
#[derive(Clone, Copy, PartialEq, Eq, Debug)]
pub struct Inputs {
    pub x: Pulse,
    pub tally: Tally,
}
