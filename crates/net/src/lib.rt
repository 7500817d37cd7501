// The net of a rack: for each unit its taps, its line and its sums; the outside lines; the tick count.
#![tactic(auto)]

pub mod inputs;
pub mod net;
pub mod record;
pub mod table;
