// A venue or show file, cut into fields: a tag, a length in two bytes, and a body of that length.
#![tactic(auto)]

pub mod cut;
pub mod faults;
pub mod field;
pub mod parts;
pub mod reader;
pub mod spot;
