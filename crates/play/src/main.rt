// The transcript program: reads a recorded sequence of calls from standard input and prints a line for each, then the
// last line.
#![tactic(auto)]

ghost use Rattle.std.specs.Prelude.{◌≤◌, length, IfOk};

use std::io;
use std::io::Read;
use transcript::play::Player;

// How much of the input is read: a byte more than the longest has.
const MOST: usize = 65537;

// Plays the input. Before the events stands a header of four bytes at least, and an event has one at least: so a turn
// for each byte is enough to come to the end.
fn play(rt: &impl Print, s: &[u8]) -> io::Result<()> {
    let mut line = [0u8; 64];
    let mut p = transcript::play::open(s);
    for _ in s {
        let step = transcript::play::advance(p, s, &mut line);
        p = step.player;
        let wrote = step.wrote;
        if wrote == 0 {
            break;
        }
        put(rt, &line, wrote)?;
    }
    let wrote = transcript::play::close(p, &mut line);
    put(rt, &line, wrote)
}

// Writes the first n bytes of a line. (`replay` has its like: a line each, and no library for the two.)
fn put(rt: &impl Print, line: &[u8], n: usize) -> io::Result<()> {
    rt.write_all(line.get(..n).unwrap_or_default())
}

// Fills the buffer from its front until it is full or the input ends, and answers how many bytes were read. (No Vec: the
// program takes no heap, so it can't run out of it. A read says how far it came: so a `while`.)
fn read_full(from: &mut impl Read, buf: &mut [u8]) -> io::Result<usize>
    ensures { IfOk result (λ n. n ≤ length buf.new) }
{
    let mut done = 0;
    while done < buf.len() {
        let n = from.read(&mut buf[done..])?;
        if n == 0 {
            break;
        }
        done += n;
    }
    Ok(done)
}

fn main(rt: HostRuntime) -> io::Result<()> {
    let mut input = [0; MOST];
    let n = read_full(&mut rt.reader(), &mut input)?;
    play(&rt, &input[..n])
}
