// A run, line by line.
#![tactic(auto)]

pub mod rows;
pub mod session;
pub mod shown;
