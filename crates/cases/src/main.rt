// Runs cases, bytes and calls: echoes each line of standard input, then of the files `confirmed`, `ended` and `held`, and
// answers it where it is a case. A table is kept from line to line of each.
#![tactic(auto)]

mod cases;
mod engine_cases;
mod print;
mod table_cases;

ghost use Rattle.std.specs.Prelude.{◌<◌, ◌≤◌, length, IfOk, IfSome};

use cases::ROOM;
use std::io::Read;
use std::rt::Files;
use std::{fs, io};
use table::Table;

// How much is read of standard input, and of a file.
const MOST: usize = 65536;

// The value of an upper-case hex digit.
fn digit(b: u8) -> Option<u8>
    ensures { IfSome result (λ d. d < 16) }
{
    match b {
        b'0'..=b'9' => Some(b - b'0'),
        b'A'..=b'F' => Some(b - b'A' + 10),
        _ => None,
    }
}

// The byte of two hex digits.
fn join(high: u8, low: u8) -> Option<u8> {
    Some(digit(high)? * 16 + digit(low)?)
}

// What may stand between two pairs.
fn is_gap(b: u8) -> bool {
    b == b' ' || b == b'.'
}

// The bytes that the digits say, at the front of the room; none where they say no bytes, or too many. (No `for`: a pair
// of digits takes a second `next`.)
fn bytes_of<'a>(digits: &[u8], room: &'a mut [u8; ROOM]) -> Option<&'a [u8]> {
    let mut digits = digits.iter();
    let mut count = 0;
    while let Some(high) = digits.next() {
        if is_gap(*high) {
            continue;
        }
        let low = digits.next()?;
        let to = room.get_mut(count)?;
        *to = join(*high, *low)?;
        count += 1;
    }
    room.get(..count)
}

// Answers a case on a line of its own: its letter, and the digits behind it.
fn case(rt: &impl Print, t: Table, letter: u8, digits: &[u8]) -> io::Result<Table> {
    let mut room = [0; ROOM];
    rt.write_all(b"  ")?;
    let next = match bytes_of(digits, &mut room) {
        Some(bytes) => engine_cases::run(rt, t, letter, bytes)?,
        None => engine_cases::bad(rt, t)?,
    };
    rt.write_all(b"\n")?;
    Ok(next)
}

// Takes the lines one by one: echoes each, and answers it unless it is empty or a heading. The table is all zero at
// first, and handed on to a case alone.
fn lines(rt: &impl Print, text: &[u8]) -> io::Result<()> {
    let mut t = Table::zero();
    for line in text.split_inclusive(|b| *b == b'\n') {
        let line = line.strip_suffix(b"\n").unwrap_or(line);
        rt.write_all(line)?;
        rt.write_all(b"\n")?;
        match line {
            [] | [b'#', ..] => {}
            [letter, digits @ ..] => t = case(rt, t, *letter, digits)?,
        }
    }
    Ok(())
}

// Fills the buffer from its front until it is full or the input ends, and answers how many bytes were read. (No Vec: the
// program takes no heap, so it can't run out of it. A read says how far it came: so a `while`.)
fn read_full(from: &mut impl Read, buf: &mut [u8]) -> io::Result<usize>
    ensures { IfOk result (λ n. n ≤ length buf.new) }
{
    let mut done = 0;
    while done < buf.len() {
        let n = from.read(&mut buf[done..])?;
        if n == 0 {
            break;
        }
        done += n;
    }
    Ok(done)
}

// Takes the lines of an open file.
fn run_file(rt: &impl Print, file: &mut impl Read) -> io::Result<()> {
    let mut text = [0; MOST];
    let n = read_full(file, &mut text)?;
    lines(rt, &text[..n])
}

// Takes the lines of a file.
fn run_named(rt: &(impl Files + Print), name: &str) -> io::Result<()> {
    match fs::open(rt, name) {
        Ok(mut file) => run_file(rt, &mut file),
        Err(_) => println!(rt; "{name} missing"),
    }
}

fn main(rt: HostRuntime) -> io::Result<()> {
    run_file(&rt, &mut rt.reader())?;
    run_named(&rt, "confirmed")?;
    run_named(&rt, "ended")?;
    run_named(&rt, "held")
}
