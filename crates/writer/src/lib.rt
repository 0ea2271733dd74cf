// Writing venue and show files into a given space.
#![tactic(auto)]

mod cursor;
pub mod encode;
mod position;
mod resource;
mod route;
mod show;
mod venue;
