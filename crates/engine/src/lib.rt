// The engine's calls. Each takes the table and hands back the next one; bad input is refused by its number, and a
// refusal changes nothing.
#![tactic(auto)]

pub mod calls;

use plan::Answer;
use table::Table;
use wire::codes::Refusal;

// The next table, and the answer, or why the call is refused. Which commands this call ended: bit i of `ended` for the
// one in record i of the table that was handed in. The id of the return path that a reply goes to: the sender of the
// message, or the path of the finished task; 0 with no reply, which the answer says already, so `to` is no Option. Which
// units have to stop: bit u of `stops` where the command that ran on unit u was ended by anything but its own finish.
#[derive(Clone, Copy)]
pub struct Outcome {
    pub table: Table,
    pub answer: Result<Answer, Refusal>,
    pub ended: u64,
    pub to: u32,
    pub stops: u8,
}
