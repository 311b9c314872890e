// The speed program: 100,000 messages against 60 live tasks, and one line that says how they were answered. They are
// 25,000 rounds of four; where standard input begins with `c`, each is CLEAR TASK SET of a unit that has no task.
#![tactic(auto)]

mod messages;
mod tally;

use engine::calls::{message, setup};
use messages::{abort_task, clear_task_set, command};
use std::io;
use std::io::Read;
use table::Table;
use tally::Tally;
use task::map::live_count;

const LIVE: u16 = 60;

const ROUNDS: u16 = 25_000;

const CLEARS: u32 = 100_000;

// The byte of standard input that asks for CLEAR TASK SET.
const CLEAR: u8 = b'c';

// The tag of a round's new command, and a tag that no command has.
const NEW: u16 = 0x1000;

const ABSENT: u16 = 0x2000;

// The path whose turn it is: two hosts take turns.
fn turn(n: u16) -> u8 {
    1 + (n % 2) as u8
}

// The table and the tally, from message to message, and the reply buffer.
#[derive(Drop)]
struct Run {
    table: Table,
    tally: Tally,
    reply: [u8; 64],
}

impl Run {
    // Hands the engine a message.
    fn send(&mut self, m: &[u8]) {
        let o = message(self.table, m, &mut self.reply);
        self.table = o.table;
        self.tally.add(o.answer, &self.reply);
        self.tally.add_ended(o.ended, o.stops);
    }

    // The commands that stay live, with tags from 0.
    fn fill(&mut self) {
        for n in 0..LIVE {
            self.send(&command(turn(n), n));
        }
    }

    // A round: a new command, ABORT TASK of it, a command whose tag is taken, ABORT TASK of a tag that is not there.
    fn round(&mut self, n: u16) {
        let path = turn(n);
        let taken = n % LIVE;
        self.send(&command(path, NEW));
        self.send(&abort_task(path, NEW));
        self.send(&command(path, taken));
        self.send(&abort_task(path, ABSENT));
    }

    // All rounds.
    fn rounds(&mut self) {
        for n in 0..ROUNDS {
            self.round(n);
        }
    }

    // CLEAR TASK SET of unit 1, again and again. The tasks of unit 0 stay live.
    fn clears(&mut self) {
        for n in 0..CLEARS {
            self.send(&clear_task_set(turn((n % 2) as u16), 1));
        }
    }
}

// The first byte of standard input.
fn asked(rt: &impl Input) -> io::Result<Option<u8>> {
    rt.reader().bytes().next().transpose()
}

// The line.
fn say(rt: &impl Print, t: Table, tally: Tally) -> io::Result<()> {
    tally.say(rt)?;
    println!(rt; " live {}", live_count(t.live))
}

fn main(rt: HostRuntime) -> io::Result<()> {
    let o = setup(&[1, 2], 0x03, 1);
    let mut r = Run {
        table: o.table,
        tally: Tally::default(),
        reply: [0; 64],
    };
    r.fill();
    r.tally = Tally::default();
    if asked(&rt)? == Some(CLEAR) {
        r.clears();
    } else {
        r.rounds();
    }
    say(&rt, r.table, r.tally)
}
