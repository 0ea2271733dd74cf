// A case's line: the files that it has, and what is said of them.
#![tactic(auto)]

pub mod case;
mod hex;
pub mod verdict;
pub mod written;
