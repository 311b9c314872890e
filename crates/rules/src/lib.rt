// A command's rules and the management orders, decided over a small record of facts, and what an answer does to paths
// and units.
#![tactic(auto)]

pub mod change;
pub mod command;
pub mod facts;
pub mod manage;
