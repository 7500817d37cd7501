// What the calls of a job answer and leave, as relations, and the law that holds over any run of them. The code that meets
// them is in the crate `machine`; this crate has the statements and the theorem.
#![tactic(auto)]

pub mod reading;
