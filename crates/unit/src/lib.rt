// What every unit of the machine means: pulses, tallies, refusals and the trait `Unit`.
#![tactic(auto)]

pub mod pulse;
pub mod refusal;
pub mod tally;
pub mod unit;
