// The faults of a pair of files, layer above layer, and what a fault says.
#![tactic(auto)]

pub mod fault;
pub mod layers;
pub mod offending;
