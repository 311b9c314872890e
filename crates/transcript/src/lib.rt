// A recorded sequence of calls, played event by event: one event in, one line out into a lent line buffer.
#![tactic(auto)]

pub mod line;
pub mod play;
