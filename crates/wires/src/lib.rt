// Wires: what a tap reads, and by which numbers signs and sources are asked for.
#![tactic(auto)]

pub mod source;
pub mod tap;
