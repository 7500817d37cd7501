// The makes of units: what keeps a position and a residue of its own.
#![tactic(auto)]

pub mod band;
pub mod integrator;
mod range;
pub mod servo;
