// The letters: what each case asks of the readers and the writer, and what they say.
use crate::print::{pairs, pairs_filled, word_if};
use reply::Reply;
use std::io;
use wire::block::{command_block, cut_short, is_linked, no_length};
use wire::codes::{Refusal, ReturnCode, Sense, StatusByte};
use wire::fields::{copy, word};
use wire::message::{Flags, Message, reserved_set};

// The most bytes that a case has.
pub const ROOM: usize = 96;

// The largest buffer that a reply is written into, and what stands in it before.
pub const BUFFER: usize = 80;

pub const FILL: u8 = 0xaa;

// The answer to a line that is no case.
pub(crate) fn bad_case(rt: &impl Print) -> io::Result<()> {
    rt.write_all(b"bad case")
}

// A refusal by its number.
pub(crate) fn refused(rt: &impl Print, r: Refusal) -> io::Result<()> {
    print!(rt; "refused {}", r.number())
}

// A message's name, and the fields that every message has.
fn header(rt: &impl Print, name: &str, tag: u16, path: u32) -> io::Result<()> {
    print!(rt; "{name} tag {tag:04X} path {path:08X}")
}

// A message whose last field is a LUN.
fn with_lun(rt: &impl Print, name: &str, tag: u16, path: u32, lun: u8) -> io::Result<()> {
    header(rt, name, tag, path)?;
    print!(rt; " lun {lun:02X}")
}

// Byte 10 of a command.
fn flags_of(rt: &impl Print, f: Flags) -> io::Result<()> {
    print!(rt; " ddrm {} oot {}", f.ddrm as u8, f.oot as u8)?;
    print!(rt; " resume {} confirm {}", f.resume as u8, f.confirm as u8)?;
    print!(rt; " queue {}", f.queue.number())
}

// A message with its fields. The path of CONFIRM STATUS is OLD RETURN PATH ID.
fn fields(rt: &impl Print, m: Message) -> io::Result<()> {
    match m {
        Message::Command {
            tag,
            path,
            lun,
            flags,
        } => {
            with_lun(rt, "command", tag, path, lun)?;
            flags_of(rt, flags)
        }
        Message::ConfirmStatus {
            tag,
            path,
            new_path,
            offset,
            complete,
        } => {
            header(rt, "confirm status", tag, path)?;
            let complete = complete as u8;
            print!(rt; " new {new_path:08X} offset {offset:08X} complete {complete}")
        }
        Message::AbortTask { tag, path, tag2 } => {
            header(rt, "abort task", tag, path)?;
            print!(rt; " tag2 {tag2:04X}")
        }
        Message::AbortTaskSet { tag, path, lun } => with_lun(rt, "abort task set", tag, path, lun),
        Message::ClearTaskSet { tag, path, lun } => with_lun(rt, "clear task set", tag, path, lun),
        Message::TargetReset { tag, path } => header(rt, "target reset", tag, path),
        Message::ClearAca { tag, path, lun } => with_lun(rt, "clear aca", tag, path, lun),
        Message::UnitReset { tag, path, lun } => {
            with_lun(rt, "logical unit reset", tag, path, lun)
        }
    }
}

// Letter m: the message reader, and whether a reserved field is set.
fn message(rt: &impl Print, m: &[u8]) -> io::Result<()> {
    match wire::message::read(m) {
        Ok(read) => {
            fields(rt, read)?;
            word_if(rt, " reserved", reserved_set(m))
        }
        Err(why) => refused(rt, why),
    }
}

// Letter b: the command block, and what the rules ask of it.
fn block(rt: &impl Print, m: &[u8]) -> io::Result<()> {
    rt.write_all(b"block")?;
    pairs(rt, command_block(m))?;
    word_if(rt, " cut", cut_short(m))?;
    word_if(rt, " none", no_length(m))?;
    word_if(rt, " linked", is_linked(m))
}

// Writes a reply into a buffer of this length, and shows the answer and the whole buffer.
fn written(rt: &impl Print, length: u8, r: Reply) -> io::Result<()> {
    let mut room = [FILL; BUFFER];
    let Some(buffer) = room.get_mut(..length as usize) else {
        return bad_case(rt);
    };
    match reply::write(r, buffer) {
        Ok(n) => print!(rt; "written {n}")?,
        Err(why) => refused(rt, why)?,
    }
    rt.write_all(b" buffer")?;
    pairs_filled(rt, buffer, FILL)
}

// Letter p: a RESPONSE, from the buffer's length, TAG and RETURN CODE.
fn response(rt: &impl Print, c: &[u8]) -> io::Result<()> {
    let &[length, high, low, code] = c else {
        return bad_case(rt);
    };
    let r = Reply::Response {
        tag: word(high, low),
        code: ReturnCode(code),
    };
    written(rt, length, r)
}

// Letter s: a STATUS, from the buffer's length, TAG, STATUS and the sense.
fn status(rt: &impl Print, c: &[u8]) -> io::Result<()> {
    let &[length, high, low, status, key, code, qualifier] = c else {
        return bad_case(rt);
    };
    let r = Reply::Status {
        tag: word(high, low),
        status: StatusByte(status),
        sense: Sense {
            key,
            code,
            qualifier,
        },
    };
    written(rt, length, r)
}

// Letter i: the STATUS of an invalid command, from the buffer's length and TAG.
fn invalid(rt: &impl Print, c: &[u8]) -> io::Result<()> {
    let &[length, high, low] = c else {
        return bad_case(rt);
    };
    let r = Reply::Invalid {
        tag: word(high, low),
    };
    written(rt, length, r)
}

// A reply with its fields.
fn reply_fields(rt: &impl Print, r: Reply) -> io::Result<()> {
    match r {
        Reply::Response { tag, code } => print!(rt; "response tag {tag:04X} code {:02X}", code.0),
        Reply::Status { tag, status, sense } => {
            print!(rt; "status tag {tag:04X} status {:02X} sense", status.0)?;
            pairs(rt, &[sense.key, sense.code, sense.qualifier])
        }
        Reply::Invalid { tag } => print!(rt; "invalid tag {tag:04X}"),
    }
}

// Letter r: the reply reader.
fn read_reply(rt: &impl Print, b: &[u8]) -> io::Result<()> {
    match reply::read(b) {
        Ok(r) => reply_fields(rt, r),
        Err(why) => refused(rt, why),
    }
}

// What the reader says of a damaged reply: the number of the refusal alone, or the reply.
fn verdict(rt: &impl Print, b: &[u8]) -> io::Result<()> {
    match reply::read(b) {
        Ok(r) => reply_fields(rt, r),
        Err(why) => print!(rt; "{}", why.number()),
    }
}

// A place, and what the reader says when 1 is added to the byte there. (The room and its count have one use, on the last
// line: so no vector.)
fn place(rt: &impl Print, b: &[u8], at: usize) -> io::Result<()> {
    word_if(rt, " ", at > 0)?;
    print!(rt; "{at}:")?;
    let mut room = [0; ROOM];
    let count = copy(b, &mut room);
    if let Some(damaged) = room.get_mut(at) {
        *damaged = damaged.wrapping_add(1);
    }
    verdict(rt, &room[..count])
}

// Letter d: a reply with each byte damaged in turn.
fn damage(rt: &impl Print, b: &[u8]) -> io::Result<()> {
    for at in 0..b.len() {
        place(rt, b, at)?;
    }
    Ok(())
}

// Answers the case of a letter with these bytes. (A match, and no table of functions: each takes what it needs.)
pub(crate) fn run(rt: &impl Print, letter: u8, bytes: &[u8]) -> io::Result<()> {
    match letter {
        b'm' => message(rt, bytes),
        b'b' => block(rt, bytes),
        b'p' => response(rt, bytes),
        b's' => status(rt, bytes),
        b'i' => invalid(rt, bytes),
        b'r' => read_reply(rt, bytes),
        b'd' => damage(rt, bytes),
        _ => bad_case(rt),
    }
}
