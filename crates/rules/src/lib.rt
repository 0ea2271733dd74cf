// The rules that admit a step.
#![tactic(auto)]

mod amounts;
pub mod either;
pub mod holdings;
pub mod ordered;
pub mod placing;
pub mod room;
pub mod rule;
