// The lines of a run.
#![tactic(auto)]

pub mod buffer;
mod numbers;
pub mod parse;
pub mod pending;
mod words;
