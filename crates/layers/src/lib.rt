// The layers round a unit, of any make and any pile of layers; each is again a unit.
#![tactic(auto)]

pub mod divider;
pub mod house;
pub mod turn;
