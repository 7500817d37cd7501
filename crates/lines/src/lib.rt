// The lines of a text, one after another, and the frames that they are.
#![tactic(auto)]

pub mod frame;
pub mod reader;
pub mod taken;
