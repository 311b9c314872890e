// The replies: SCSI RESPONSE and SCSI STATUS written into a lent buffer, and read back.
#![tactic(auto)]

ghost use Rattle.std.specs.Prelude.{◌≡◌, ◌/◌, ◌%◌, ◌∷◌, eqb, replicate};
ghost use Rattle.std.specs.List.{starts_with};
ghost use Rattle.wire.specs.Codes.{sms_code, scsi_status};
ghost use Rattle.reply.specs.Replies.{writable_of, bytes_of};
ghost use Rattle.reply.specs.Calls.{Writes, fitted, as_response, as_status, found_in};

use wire::codes::{
    ADDITIONAL_SENSE_LENGTH, CURRENT_ERROR, REPLY_ROOM, Refusal, ReturnCode, SCSI_RESPONSE,
    SCSI_STATUS, SMS_CODE, Sense, StatusByte,
};
use wire::fields::{byte_at, copy, word};

// Invalid is the SCSI STATUS of a command whose bits contradict each other: STATUS 00h, RETURN CODE FFh.
#[derive(Clone, Copy)]
pub enum Reply {
    Response {
        tag: u16,
        code: ReturnCode,
    },
    Status {
        tag: u16,
        status: StatusByte,
        sense: Sense,
    },
    Invalid {
        tag: u16,
    },
}

// The length of each reply.
const RESPONSE_LENGTH: usize = 5;

const STATUS_LENGTH: usize = 26;

// The codes of a RESPONSE, and the statuses that go without sense.
const RESPONSE_CODES: [ReturnCode; 5] = [
    ReturnCode::DONE,
    ReturnCode::TASK_NOT_FOUND,
    ReturnCode::OVERLAPPED,
    ReturnCode::NO_ACA,
    ReturnCode::INVALID_FIELD,
];

const PLAIN_STATUSES: [StatusByte; 5] = [
    StatusByte::GOOD,
    StatusByte::CONDITION_MET,
    StatusByte::RESERVATION_CONFLICT,
    StatusByte::TASK_SET_FULL,
    StatusByte::ACA_ACTIVE,
];

// Whether the engine can write the reply.
#[tactic(auto, unfolding(crate::specs::Replies::writable_of))]
fn writable(r: Reply) -> bool
    ensures { result ≡ writable_of r }
{
    match r {
        Reply::Response { code, .. } => RESPONSE_CODES.contains(&code),
        Reply::Status { status, sense, .. } => {
            if status == StatusByte::CHECK_CONDITION {
                sense.key <= 15
            } else {
                sense == Sense::NONE && PLAIN_STATUSES.contains(&status)
            }
        }
        Reply::Invalid { .. } => true,
    }
}

#[tactic(auto, unfolding(crate::specs::Replies::bytes_of))]
fn response_bytes(tag: u16, code: ReturnCode) -> [u8; RESPONSE_LENGTH]
    ensures { result ≡ bytes_of (Reply.Response tag code) }
{
    let [high, low] = tag.to_be_bytes();
    [SMS_CODE, SCSI_RESPONSE, high, low, code.0]
}

// A STATUS of zero bytes behind its TAG.
fn status_head(tag: u16) -> [u8; STATUS_LENGTH]
    ensures { result ≡ sms_code ∷ scsi_status ∷ tag / 256 ∷ tag % 256 ∷ replicate 22 0 }
{
    let mut b = [0; STATUS_LENGTH];
    let [high, low] = tag.to_be_bytes();
    b[0] = SMS_CODE;
    b[1] = SCSI_STATUS;
    b[2] = high;
    b[3] = low;
    b
}

#[tactic(auto, unfolding(crate::specs::Replies::bytes_of))]
fn status_bytes(tag: u16, status: StatusByte, s: Sense) -> [u8; STATUS_LENGTH]
    ensures { result ≡ bytes_of (Reply.Status tag status s) }
{
    let mut b = status_head(tag);
    b[4] = status.0;
    if status == StatusByte::CHECK_CONDITION {
        b[8] = CURRENT_ERROR;
        b[10] = s.key;
        b[15] = ADDITIONAL_SENSE_LENGTH;
        b[20] = s.code;
        b[21] = s.qualifier;
    }
    b
}

#[tactic(auto, unfolding(crate::specs::Replies::bytes_of))]
fn invalid_bytes(tag: u16) -> [u8; STATUS_LENGTH]
    ensures { result ≡ bytes_of (Reply.Invalid tag) }
{
    let mut b = status_head(tag);
    b[4] = StatusByte::GOOD.0;
    b[6] = ReturnCode::INVALID_FIELD.0;
    b
}

// Writes the reply at the front of the buffer, and answers how many bytes it has. A refusal changes nothing, and bytes
// after the reply keep their values. (One function for the arms here and in `stands` would hand out an array with a
// length beside it, which is no plainer.)
#[tactic(auto, unfolding(crate::specs::Calls::written_of, crate::specs::Calls::left_of))]
pub fn write(r: Reply, buf: &mut [u8]) -> Result<usize, Refusal>
    ensures { Writes r buf.old result buf.new }
{
    if buf.len() < REPLY_ROOM {
        return Err(Refusal::SmallBuffer);
    }
    if !writable(r) {
        return Err(Refusal::NotWritable);
    }
    Ok(match r {
        Reply::Response { tag, code } => copy(&response_bytes(tag, code), buf),
        Reply::Status { tag, status, sense } => copy(&status_bytes(tag, status, sense), buf),
        Reply::Invalid { tag } => copy(&invalid_bytes(tag), buf),
    })
}

// Whether the reply's bytes stand at the front of b.
fn stands(r: Reply, b: &[u8]) -> bool
    ensures { result ≡ starts_with eqb b.now (bytes_of r) }
{
    match r {
        Reply::Response { tag, code } => b.starts_with(&response_bytes(tag, code)),
        Reply::Status { tag, status, sense } => b.starts_with(&status_bytes(tag, status, sense)),
        Reply::Invalid { tag } => b.starts_with(&invalid_bytes(tag)),
    }
}

// The reply, if it is one that the engine writes and its bytes stand at the front of b.
#[tactic(auto, unfolding(crate::specs::Calls::fitted))]
fn fit(r: Reply, b: &[u8]) -> Result<Reply, Refusal>
    ensures { result ≡ fitted r b.now }
{
    if writable(r) && stands(r, b) {
        Ok(r)
    } else {
        Err(Refusal::NotWritable)
    }
}

fn as_response(b: &[u8]) -> Reply
    ensures { result ≡ as_response b.now }
{
    Reply::Response {
        tag: word(byte_at(b, 2), byte_at(b, 3)),
        code: ReturnCode(byte_at(b, 4)),
    }
}

// By its RETURN CODE a STATUS is one of a command that was processed, or of an invalid one.
fn as_status(b: &[u8]) -> Reply
    ensures { result ≡ as_status b.now }
{
    let tag = word(byte_at(b, 2), byte_at(b, 3));
    if byte_at(b, 6) == ReturnCode::INVALID_FIELD.0 {
        return Reply::Invalid { tag };
    }
    let sense = Sense {
        key: byte_at(b, 10),
        code: byte_at(b, 20),
        qualifier: byte_at(b, 21),
    };
    Reply::Status {
        tag,
        status: StatusByte(byte_at(b, 4)),
        sense,
    }
}

// The reply at the start of the bytes, or the refusal.
#[tactic(auto, unfolding(crate::specs::Calls::found_in))]
pub fn read(b: &[u8]) -> Result<Reply, Refusal>
    ensures { result ≡ found_in b.now }
{
    if b.len() < 2 {
        return Err(Refusal::TooShort);
    }
    if b[0] != SMS_CODE {
        return Err(Refusal::NotHandled);
    }
    match b[1] {
        SCSI_RESPONSE if b.len() < RESPONSE_LENGTH => Err(Refusal::TooShort),
        SCSI_RESPONSE => fit(as_response(b), b),
        SCSI_STATUS if b.len() < STATUS_LENGTH => Err(Refusal::TooShort),
        SCSI_STATUS => fit(as_status(b), b),
        _ => Err(Refusal::NotHandled),
    }
}
