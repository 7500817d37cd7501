// What a patch text is: its frames, the rules that they keep below one another, and its first fault. No code but the widths of the
// figures; the theorems of proofs/ are cited by the crates above.
#![tactic(auto)]

pub mod widths;
