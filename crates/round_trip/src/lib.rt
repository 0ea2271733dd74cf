// What is read is written back to the byte, and what is written is read again.
#![tactic(auto)]

pub mod again;
pub mod back;
pub mod compare;
#[cfg(test)]
mod tests;
