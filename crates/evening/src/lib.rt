// A whole evening, from the bytes of two files and a list of calls.
#![tactic(auto)]

pub mod evening;
pub mod step;
#[cfg(test)]
mod tests;
