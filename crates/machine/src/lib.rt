// Jobs: a rack of units and its net, driven by calls. Written once for every make of unit.
#![tactic(auto, using(crate::proofs::Refusing::refusals))]

mod checks;
pub mod job;
