// The calls of an evening and their answers, and what every history of them keeps.
#![tactic(auto)]

pub mod calls;
