// A tick of a lent rack and its net, in two passes. For the jobs alone, which ask first whether rack and net belong to them.
#![tactic(auto)]

pub mod passes;
pub mod rack;
