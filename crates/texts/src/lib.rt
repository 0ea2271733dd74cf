// What a sheet says of a stage, as text.
#![tactic(auto)]

pub mod claims;
pub mod columns;
pub mod names;
pub mod refused;
