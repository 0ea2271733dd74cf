// The console: a stage, a rule, and where the pieces are.
#![tactic(auto)]

pub mod console;
mod moves;
pub mod promise;
pub mod questions;
mod shows;
pub mod steps;
