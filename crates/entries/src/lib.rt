// One line of a patch text: what it says below the frames above it, or why it is refused.
#![tactic(auto)]

pub mod figures;
pub mod latest;
pub mod tails;
pub mod taps;
pub mod units;
