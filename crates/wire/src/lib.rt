// The wire: the numbers of page 01 and 003, and received bytes read as messages. It knows no table.
#![tactic(auto)]

pub mod block;
pub mod codes;
pub mod fields;
pub mod message;
mod tables;
