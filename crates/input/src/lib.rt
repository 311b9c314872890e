// The reading side of a transcript: its numbers, its header, its events.
#![tactic(auto)]

pub mod event;
pub mod header;
pub mod number;
