// Reading a venue file and a show file into tables.
#![tactic(auto)]

mod needs;
pub mod pair;
mod position;
mod show;
mod turns;
mod venue;
