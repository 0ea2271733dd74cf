// Figures of the way home.
#![tactic(auto)]

pub mod claim;
pub mod figure;
pub mod kinds;
pub mod lookups;
pub mod reads;
pub mod sheets;
pub mod stage;
