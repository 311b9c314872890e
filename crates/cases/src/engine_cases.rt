// The letters of the engine's calls: each takes the kept table, says the answer and what was ended, and hands back the
// next table. (The output, the table and the bytes are no struct: it would be made anew for each line.)
use crate::cases::{BUFFER, FILL, ROOM, bad_case, refused};
use crate::print::{counted_if, pairs, pairs_filled};
use engine::Outcome;
use engine::calls::command_block;
use plan::Answer;
use reply::Reply;
use std::io;
use table::{LAST_ARRIVAL, Table};
use task::scan::Pick;
use task::select::Selection;
use wire::codes::Refusal;

// The arrival number, or the number of bytes transferred, that a byte stands for: FEh for 2^64 - 2, FFh for 2^64 - 1.
pub(crate) fn arrival(b: u8) -> u64 {
    match b {
        0xff => u64::MAX,
        0xfe => LAST_ARRIVAL,
        _ => u64::from(b),
    }
}

// The answer to a line that is no case, which leaves the table.
pub(crate) fn bad(rt: &impl Print, t: Table) -> io::Result<Table> {
    bad_case(rt)?;
    Ok(t)
}

// The replies in the words of a transcript.
fn say_reply(rt: &impl Print, r: Reply) -> io::Result<()> {
    match r {
        Reply::Response { tag, code } => print!(rt; "response {tag:04X} {:02X}", code.0),
        Reply::Status { tag, status, sense } => {
            print!(rt; "status {tag:04X}")?;
            pairs(rt, &[status.0, sense.key, sense.code, sense.qualifier])
        }
        Reply::Invalid { tag } => print!(rt; "invalid {tag:04X}"),
    }
}

// An answer in the words of a transcript, and `ready` for a setup. A start has the offset behind it that is handed back.
fn say(rt: &impl Print, a: Result<Answer, Refusal>) -> io::Result<()> {
    match a {
        Ok(Answer::Ready) => rt.write_all(b"ready"),
        Ok(Answer::Accepted(n)) => print!(rt; "accepted {n}"),
        Ok(Answer::Reply(r)) => say_reply(rt, r),
        Ok(Answer::Started { offset, arrival }) => {
            print!(rt; "started {arrival}")?;
            counted_if(rt, " offset ", offset)
        }
        Ok(Answer::Confirmed(n)) => print!(rt; "confirmed {n}"),
        Ok(Answer::Restarted(n)) => print!(rt; "restarted {n}"),
        Ok(Answer::Reset) => rt.write_all(b"reset"),
        Err(r) => refused(rt, r),
    }
}

// What a call ended, and which units have to stop.
fn say_ended(rt: &impl Print, ended: u64, stops: u8) -> io::Result<()> {
    print!(rt; " ended {ended:016X} stops {stops:02X}")
}

// The answer of a call that writes no reply, and its table.
fn told(rt: &impl Print, o: Outcome) -> io::Result<Table> {
    let a = o.answer;
    say(rt, a)?;
    say_ended(rt, o.ended, o.stops)?;
    Ok(o.table)
}

// The answer, and the path that the reply goes to.
fn say_to(rt: &impl Print, a: Result<Answer, Refusal>, to: u32) -> io::Result<()> {
    say(rt, a)?;
    print!(rt; " to {to:08X}")
}

// The command block, where one is handed over.
fn say_block(rt: &impl Print, part: &[u8]) -> io::Result<()> {
    if part.is_empty() {
        return Ok(());
    }
    rt.write_all(b" block")?;
    pairs(rt, part)
}

// The whole buffer.
fn say_buffer(rt: &impl Print, buffer: &[u8]) -> io::Result<()> {
    rt.write_all(b" buffer")?;
    pairs_filled(rt, buffer, FILL)
}

// Letter U: setup, from the mask, the first arrival number and the ids, one byte each. (The room has one use: no vector.)
fn setup(rt: &impl Print, t: Table, c: &[u8]) -> io::Result<Table> {
    let [mask, first, bytes @ ..] = c else {
        return bad(rt, t);
    };
    let mut ids = [0; ROOM];
    for (id, b) in ids.iter_mut().zip(bytes) {
        *id = u32::from(*b);
    }
    let listed = ids.get(..bytes.len()).unwrap_or(&ids);
    told(rt, engine::calls::setup(listed, *mask, arrival(*first)))
}

// Letter M: a message, from the buffer's length and the bytes.
fn message(rt: &impl Print, t: Table, c: &[u8]) -> io::Result<Table> {
    let [length, m @ ..] = c else {
        return bad(rt, t);
    };
    let mut room = [FILL; BUFFER];
    let Some(buffer) = room.get_mut(..*length as usize) else {
        return bad(rt, t);
    };
    let o = engine::calls::message(t, m, buffer);
    let a = o.answer;
    say_to(rt, a, o.to)?;
    say_block(rt, command_block(m, a))?;
    say_buffer(rt, buffer)?;
    say_ended(rt, o.ended, o.stops)?;
    Ok(o.table)
}

// Letter F: a finish, from the buffer's length, the arrival number, the status, the sense and, in a seventh byte, the
// bytes transferred. No byte was where there are six.
fn finish(rt: &impl Print, t: Table, c: &[u8]) -> io::Result<Table> {
    let (six, transferred) = match c {
        [six @ .., last] if six.len() == 6 => (six, *last),
        _ => (c, 0),
    };
    let &[length, number, status, key, code, qualifier] = six else {
        return bad(rt, t);
    };
    let mut room = [FILL; BUFFER];
    let Some(buffer) = room.get_mut(..length as usize) else {
        return bad(rt, t);
    };
    let o = engine::calls::finish(
        t,
        arrival(number),
        status,
        key,
        code,
        qualifier,
        arrival(transferred),
        buffer,
    );
    let a = o.answer;
    say_to(rt, a, o.to)?;
    say_buffer(rt, buffer)?;
    say_ended(rt, o.ended, o.stops)?;
    Ok(o.table)
}

// Letter S: a start.
fn start(rt: &impl Print, t: Table, c: &[u8]) -> io::Result<Table> {
    let [unit] = c else {
        return bad(rt, t);
    };
    told(rt, engine::calls::start(t, *unit))
}

// Letter Z: total reset.
fn reset(rt: &impl Print, t: Table, c: &[u8]) -> io::Result<Table> {
    if !c.is_empty() {
        return bad(rt, t);
    }
    told(rt, engine::calls::total_reset(t))
}

// A task's arrival number and the place of its record.
fn say_pick(rt: &impl Print, p: Option<Pick>) -> io::Result<()> {
    match p {
        Some(p) => print!(rt; "next {} at {}", p.task.arrival, p.at),
        None => rt.write_all(b"nobody"),
    }
}

// Letter N: what goes next on the unit, of the waiting tasks.
fn next(rt: &impl Print, t: Table, c: &[u8]) -> io::Result<()> {
    match c {
        [unit] => say_pick(rt, t.pick(Selection::waiting_on(*unit))),
        _ => bad_case(rt),
    }
}

// Letter ?: the table.
fn show(rt: &impl Print, t: Table, c: &[u8]) -> io::Result<()> {
    match c {
        [] => crate::table_cases::show(rt, t),
        _ => bad_case(rt),
    }
}

// Answers the case of a letter with these bytes, and hands back the next table.
pub(crate) fn run(rt: &impl Print, t: Table, letter: u8, c: &[u8]) -> io::Result<Table> {
    match letter {
        b'U' => setup(rt, t, c),
        b'M' => message(rt, t, c),
        b'S' => start(rt, t, c),
        b'F' => finish(rt, t, c),
        b'Z' => reset(rt, t, c),
        b'!' => crate::table_cases::poke(rt, t, c),
        b'?' => {
            show(rt, t, c)?;
            Ok(t)
        }
        b'N' => {
            next(rt, t, c)?;
            Ok(t)
        }
        _ => {
            crate::cases::run(rt, letter, c)?;
            Ok(t)
        }
    }
}
