// The messages that are received, and the reader of them, which goes by the tables.
ghost use Rattle.std.specs.Prelude.{◌≡◌, ◌≤◌};
ghost use Rattle.wire.specs.Fields;
ghost use Rattle.wire.specs.Messages.{flags_of, row_found, confirm_of, fields_of, read_of, any_masked, reserved_set};

use crate::codes::{Kind, Refusal, SMS_CODE};
use crate::fields::{byte_at, word};
use crate::tables::{CODES, LENGTHS, MASKS};

// Byte 10 of a command.
#[derive(Clone, Copy)]
pub struct Flags {
    pub ddrm: bool,
    pub oot: bool,
    pub resume: bool,
    pub confirm: bool,
    pub queue: Kind,
}

// A received message with its fields: a case for each kind with its own, TAG and RETURN PATH ID too, as page 01 asks.
#[derive(Clone, Copy)]
pub enum Message {
    Command {
        tag: u16,
        path: u32,
        lun: u8,
        flags: Flags,
    },
    ConfirmStatus {
        tag: u16,
        path: u32,
        new_path: u32,
        offset: u32,
        complete: bool,
    },
    AbortTask {
        tag: u16,
        path: u32,
        tag2: u16,
    },
    AbortTaskSet {
        tag: u16,
        path: u32,
        lun: u8,
    },
    ClearTaskSet {
        tag: u16,
        path: u32,
        lun: u8,
    },
    TargetReset {
        tag: u16,
        path: u32,
    },
    ClearAca {
        tag: u16,
        path: u32,
        lun: u8,
    },
    UnitReset {
        tag: u16,
        path: u32,
        lun: u8,
    },
}

// The row of an S3P CODE, if it is one handled.
fn row_of(code: u8) -> Option<usize>
    ensures { result ≡ row_found code }
{
    CODES.iter().position(|&c| c == code)
}

fn flags_of(b: u8) -> Flags
    ensures { result ≡ flags_of b }
{
    Flags {
        ddrm: b / 128 == 1,
        oot: b / 64 % 2 == 1,
        resume: b / 32 % 2 == 1,
        confirm: b / 16 % 2 == 1,
        queue: Kind::from(b % 4),
    }
}

// TAG, bytes 2 and 3 of every message.
fn tag_of(m: &[u8]) -> u16
    ensures { result ≡ Fields.word m.now 2 }
{
    word(byte_at(m, 2), byte_at(m, 3))
}

// The number in four bytes from a place on: RETURN PATH ID is at 4 in every message.
fn long_at(m: &[u8], at: usize) -> u32
    requires { at ≤ 12 }
    ensures { result ≡ Fields.long m.now at }
{
    u32::from_be_bytes([
        byte_at(m, at),
        byte_at(m, at + 1),
        byte_at(m, at + 2),
        byte_at(m, at + 3),
    ])
}

// CONFIRM STATUS, with the fields of its table: OLD RETURN PATH ID is the path.
fn confirm_of(m: &[u8], tag: u16, path: u32) -> Message
    ensures { result ≡ confirm_of tag path m.now }
{
    Message::ConfirmStatus {
        tag,
        path,
        new_path: long_at(m, 8),
        offset: long_at(m, 12),
        complete: byte_at(m, 16) / 128 == 1,
    }
}

// The message of a row, with the fields of its table. (By the row's number, as the tables and `Messages.fields_of` are.)
#[tactic(auto, unfolding(crate::specs::Messages::fields_of))]
fn fields_of(m: &[u8], row: usize) -> Message
    ensures { result ≡ fields_of row m.now }
{
    let tag = tag_of(m);
    let path = long_at(m, 4);
    let lun = byte_at(m, 8);
    match row {
        0 => Message::Command {
            tag,
            path,
            lun,
            flags: flags_of(byte_at(m, 10)),
        },
        1 => confirm_of(m, tag, path),
        2 => Message::AbortTask {
            tag,
            path,
            tag2: word(lun, byte_at(m, 9)),
        },
        3 => Message::AbortTaskSet { tag, path, lun },
        4 => Message::ClearTaskSet { tag, path, lun },
        5 => Message::TargetReset { tag, path },
        6 => Message::ClearAca { tag, path, lun },
        _ => Message::UnitReset { tag, path, lun },
    }
}

// The message that the bytes hold, with its fields, or why it is refused.
#[tactic(auto, unfolding(crate::specs::Messages::read_of), using(crate::proofs::Rows::row_is, crate::proofs::Rows::in_table, crate::proofs::Rows::none_found))]
pub fn read(m: &[u8]) -> Result<Message, Refusal>
    ensures { result ≡ read_of m.now }
{
    if m.len() < 2 {
        return Err(Refusal::TooShort);
    }
    if m[0] != SMS_CODE {
        return Err(Refusal::NotHandled);
    }
    let Some(row) = row_of(m[1]) else {
        return Err(Refusal::NotHandled);
    };
    if m.len() < LENGTHS[row] {
        return Err(Refusal::TooShort);
    }
    Ok(fields_of(m, row))
}

// Whether one of the bytes has a bit of the mask beside it.
fn any_masked(m: &[u8], masks: &[u8]) -> bool
    ensures { result ≡ any_masked m.now masks.now }
{
    m.iter().zip(masks).any(|(b, mask)| b & mask != 0)
}

// Whether a reserved field of the message is not zero, by the masks of its row. A byte past the end is 0.
pub fn reserved_set(m: &[u8]) -> bool
    ensures { result ≡ reserved_set m.now }
{
    let Some(row) = row_of(byte_at(m, 1)) else {
        return false;
    };
    any_masked(m, &MASKS[row])
}
