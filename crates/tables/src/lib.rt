// What accepted files hold: resources of a venue, routes and positions of a show. Each table is valid by its type.
#![tactic(auto)]

pub mod nexts;
pub mod position;
pub mod reads;
pub mod reserve;
pub mod resource;
pub mod route;
pub mod show;
pub mod tables;
pub mod taking;
pub mod venue;
