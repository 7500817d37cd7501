// The patch sheet: a lawful patch at every moment.
#![tactic(auto)]

pub mod parts;
pub mod sheet;
