// How many messages were answered in each of the four ways, how many commands they ended, and how often a unit had to
// stop.
use plan::Answer;
use std::io;
use task::map::live_count;
use wire::codes::{Refusal, ReturnCode};

#[derive(Clone, Copy, Default)]
pub struct Tally {
    pub accepted: u64,
    pub done: u64,
    pub overlapped: u64,
    pub not_found: u64,
    pub ended: u64,
    pub stopped: u64,
}

// Adds to a count.
fn count(n: &mut u64, more: u64) {
    *n = n.wrapping_add(more);
}

impl Tally {
    // A RESPONSE more, by its RETURN CODE.
    fn response(&mut self, code: ReturnCode) {
        if code == ReturnCode::DONE {
            count(&mut self.done, 1);
        } else if code == ReturnCode::OVERLAPPED {
            count(&mut self.overlapped, 1);
        } else if code == ReturnCode::TASK_NOT_FOUND {
            count(&mut self.not_found, 1);
        }
    }

    // An answer more. A RESPONSE counts by its byte in the reply buffer, so that no compiler can leave the reply out.
    pub(crate) fn add(&mut self, a: Result<Answer, Refusal>, reply: &[u8; 64]) {
        match a {
            Ok(Answer::Accepted(_)) => count(&mut self.accepted, 1),
            Ok(Answer::Reply(_)) => self.response(ReturnCode(reply[4])),
            _ => {}
        }
    }

    // What a message ended is added. Both maps count, so that no compiler can leave them out.
    pub(crate) fn add_ended(&mut self, ended: u64, stops: u8) {
        count(&mut self.ended, live_count(ended) as u64);
        count(&mut self.stopped, live_count(u64::from(stops)) as u64);
    }

    // The numbers, each behind its word.
    pub(crate) fn say(&self, rt: &impl Print) -> io::Result<()> {
        let t = *self;
        print!(rt;
            "accepted {} 00h {} 04h {}",
            t.accepted, t.done, t.overlapped
        )?;
        print!(rt;
            " 01h {} ended {} stopped {}",
            t.not_found, t.ended, t.stopped
        )
    }
}
