// A sheet written as a patch text.
#![tactic(auto)]

pub mod put;
pub mod write;
