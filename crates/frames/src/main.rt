// A program to be read, for the stack figure: it makes each of the five calls at two places, so that the compiler
// keeps each as a function. What it hands them comes from standard input, so that none is compiled for one value
// alone. tools/stack reads the built program.
#![tactic(auto)]

ghost use Rattle.std.specs.Prelude.{◌≤◌, length, IfOk};

use engine::calls::{finish, message, setup, start, total_reset};
use std::io;
use std::io::Read;
use table::Table;
use task::map::live_count;

// The five calls, each with some of the bytes.
fn calls(b: [u8; 64], reply: &mut [u8; 64]) -> Table {
    let o = setup(&[u32::from(b[0]), u32::from(b[1])], b[2], u64::from(b[3]));
    let o = message(o.table, &b, reply);
    let o = start(o.table, b[4]);
    let o = finish(
        o.table,
        u64::from(b[5]),
        b[6],
        b[7],
        b[8],
        b[9],
        u64::from(b[19]),
        reply,
    );
    let o = total_reset(o.table);
    o.table
}

// The same calls, with other bytes and in another order: two functions, so that each call is made at two places.
fn calls_again(b: [u8; 64], reply: &mut [u8; 64]) -> Table {
    let o = setup(&[u32::from(b[10])], b[11], u64::from(b[12]));
    let o = total_reset(o.table);
    let o = message(o.table, &b, reply);
    let o = start(o.table, b[13]);
    let o = finish(
        o.table,
        u64::from(b[14]),
        b[15],
        b[16],
        b[17],
        b[18],
        u64::from(b[20]),
        reply,
    );
    o.table
}

fn say(rt: &impl Print, word: &[u8], t: Table) -> io::Result<()> {
    rt.write_all(word)?;
    rt.print(live_count(t.live) as u64)
}

// Fills the buffer from its front until it is full or the input ends, and answers how many bytes were read. (No Vec: the
// program takes no heap, so it can't run out of it. A read says how far it came: so a `while`.)
fn read_full(from: &mut impl Read, buf: &mut [u8]) -> io::Result<usize>
    ensures { IfOk result (λ n. n ≤ length buf.new) }
{
    let mut done = 0;
    while done < buf.len() {
        let n = from.read(&mut buf[done..])?;
        if n == 0 {
            break;
        }
        done += n;
    }
    Ok(done)
}

fn main(rt: HostRuntime) -> io::Result<()> {
    let mut b = [0u8; 64];
    read_full(&mut rt.reader(), &mut b)?;
    let mut reply = [0u8; 64];
    say(&rt, b"live ", calls(b, &mut reply))?;
    say(&rt, b" ", calls_again(b, &mut reply))?;
    rt.write_all(b"\n")
}
