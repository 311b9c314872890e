// Plays every transcript of the data folder and compares what is printed with what must be printed.
// The file `names` has one name a line; NAME.in is an input, NAME.out its text.
#![tactic(auto)]

ghost use Rattle.std.specs.Prelude.{◌≤◌, length, IfOk};

use arrayvec::ArrayString;
use std::io::Read;
use std::rt::Files;
use std::{fs, io};
use transcript::play::Player;

// How much is read of an input, a byte more than the longest has; of a text; and of the names.
const INPUT: usize = 65537;

const TEXT: usize = 65536;

const NAMES: usize = 4096;

// The most bytes of a file's path.
const PATH: usize = 63;

// The first line with its end, and what stands behind it.
fn first_line(text: &[u8]) -> (&[u8], &[u8]) {
    match text.iter().position(|b| *b == b'\n') {
        Some(end) => text.split_at(end + 1),
        None => (text, b""),
    }
}

// Whether a line is the expected one; says where it is not.
fn agrees(
    rt: &impl Print,
    name: &[u8],
    number: usize,
    expected: &[u8],
    printed: &[u8],
) -> io::Result<bool> {
    if expected == printed {
        return Ok(true);
    }
    rt.write_all(name)?;
    println!(rt; " differs at line {number}")?;
    rt.write_all(expected)?;
    rt.write_all(printed)?;
    Ok(false)
}

// Plays an input. Before the events stands a header of four bytes at least, and an event has one at least: so fewer
// turns than bytes are enough to come to the end.
fn plays(rt: &impl Print, name: &[u8], s: &[u8], text: &[u8]) -> io::Result<bool> {
    let mut line = [0u8; 64];
    let mut p = transcript::play::open(s);
    let mut rest = text;
    for number in 1..s.len() {
        let step = transcript::play::advance(p, s, &mut line);
        p = step.player;
        let wrote = step.wrote;
        if wrote == 0 {
            return closes(rt, name, number, p, rest);
        }
        let (expected, behind) = first_line(rest);
        if !agrees(rt, name, number, expected, front(&line, wrote))? {
            return Ok(false);
        }
        rest = behind;
    }
    closes(rt, name, s.len().max(1), p, rest)
}

// Whether the last line is all that is left of the text.
fn closes(rt: &impl Print, name: &[u8], number: usize, p: Player, rest: &[u8]) -> io::Result<bool> {
    let mut line = [0u8; 64];
    let wrote = transcript::play::close(p, &mut line);
    agrees(rt, name, number, rest, front(&line, wrote))
}

// The first n bytes of a line. (`play` has its like: a line each, and no library for the two.)
fn front(line: &[u8], n: usize) -> &[u8] {
    line.get(..n).unwrap_or_default()
}

// Opens the file of a name; one whose path is too long or is no text is missing.
fn open<R: Files>(rt: &R, name: &[u8], ending: &str) -> Option<R::File> {
    let mut path = ArrayString::<PATH>::new();
    path.try_push_str(str::from_utf8(name).ok()?).ok()?;
    path.try_push_str(ending).ok()?;
    fs::open(rt, path.as_str()).ok()
}

// Fills the buffer from its front until it is full or the input ends, and answers how many bytes were read. (No Vec: the
// program takes no heap, so it can't run out of it. A read says how far it came: so a `while`.)
fn read_full(from: &mut impl Read, buf: &mut [u8]) -> io::Result<usize>
    ensures { IfOk result (λ n. n ≤ length buf.new) }
{
    let mut done = 0;
    while done < buf.len() {
        let n = from.read(&mut buf[done..])?;
        if n == 0 {
            break;
        }
        done += n;
    }
    Ok(done)
}

// Reads a file, and closes it.
fn read(mut file: impl Read + Drop, buf: &mut [u8]) -> io::Result<usize>
    ensures { IfOk result (λ n. n ≤ length buf.new) }
{
    read_full(&mut file, buf)
}

// One transcript: whether it is the same.
fn replay(rt: &(impl Files + Print), name: &[u8]) -> io::Result<bool> {
    let input = open(rt, name, ".in");
    let output = open(rt, name, ".out");
    let (Some(input), Some(output)) = (input, output) else {
        rt.write_all(name)?;
        rt.write_all(b" missing\n")?;
        return Ok(false);
    };
    let mut s = [0; INPUT];
    let mut text = [0; TEXT];
    let n = read(input, &mut s)?;
    let m = read(output, &mut text)?;
    if !plays(rt, name, &s[..n], &text[..m])? {
        return Ok(false);
    }
    rt.write_all(name)?;
    rt.write_all(b" same\n")?;
    Ok(true)
}

// The names: each line without its last byte, which is its end (the last line too, where it has none).
fn replay_all(rt: &(impl Files + Print), names: &[u8]) -> io::Result<()> {
    let mut all: u64 = 0;
    let mut good: u64 = 0;
    for line in names.split_inclusive(|b| *b == b'\n') {
        let name = line.split_last().map_or(line, |(_, name)| name);
        if replay(rt, name)? {
            good = good.saturating_add(1);
        }
        all = all.saturating_add(1);
    }
    println!(rt; "{all} transcripts, {good} same")
}

fn main(rt: HostRuntime) -> io::Result<()> {
    let Ok(file) = fs::open(&rt, "names") else {
        return rt.write_all(b"names missing\n");
    };
    let mut names = [0; NAMES];
    let n = read(file, &mut names)?;
    replay_all(&rt, &names[..n])
}
