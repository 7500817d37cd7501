// A patch text read into a sheet.
#![tactic(auto)]

pub mod phases;
pub mod read;
