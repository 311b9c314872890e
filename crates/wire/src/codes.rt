// The numbers of page 01 and 003: those of a type as its associated constants, those of a refusal and of a kind by
// `number`. specs/Codes.antt has them under the same names and says when each is meant.
ghost use Rattle.std.specs.Prelude.{◌≡◌};
ghost use Rattle.wire.specs.Codes.{refusal_number, kind_number, kind_of};

// The reply buffer that every call with a reply asks for.
pub const REPLY_ROOM: usize = 64;

// SMS CODE of every message, and the S3P CODE of each (003, table 4).
pub const SMS_CODE: u8 = 0x83;

pub const SCSI_RESPONSE: u8 = 0x03;

pub const SCSI_COMMAND: u8 = 0x10;

pub const SCSI_STATUS: u8 = 0x11;

pub const CONFIRM_STATUS: u8 = 0x12;

pub const ABORT_TASK: u8 = 0x30;

pub const ABORT_TASK_SET: u8 = 0x31;

pub const CLEAR_TASK_SET: u8 = 0x32;

pub const TARGET_RESET: u8 = 0x33;

pub const CLEAR_ACA: u8 = 0x34;

pub const LOGICAL_UNIT_RESET: u8 = 0x35;

// The operation codes that go past an attention (page 01, rule 8).
pub const INQUIRY: u8 = 0x12;

pub const REQUEST_SENSE: u8 = 0x03;

// Why a call is refused (page 01, "Numbered refusals").
#[derive(Clone, Copy, PartialEq, Eq)]
pub enum Refusal {
    TooShort,
    NotHandled,
    UnknownPath,
    Discarded,
    SmallBuffer,
    NotAttached,
    UnitBusy,
    NothingToStart,
    NotRunning,
    BadStatus,
    BadPaths,
    Malformed,
    NotSound,
    NotWritable,
    NothingToConfirm,
}

impl Refusal {
    // Its number on page 01.
    pub fn number(self) -> u8
        ensures { result ≡ refusal_number self }
    {
        match self {
            Refusal::TooShort => 1,
            Refusal::NotHandled => 2,
            Refusal::UnknownPath => 3,
            Refusal::Discarded => 4,
            Refusal::SmallBuffer => 5,
            Refusal::NotAttached => 6,
            Refusal::UnitBusy => 7,
            Refusal::NothingToStart => 8,
            Refusal::NotRunning => 9,
            Refusal::BadStatus => 10,
            Refusal::BadPaths => 11,
            Refusal::Malformed => 12,
            Refusal::NotSound => 13,
            Refusal::NotWritable => 14,
            Refusal::NothingToConfirm => 15,
        }
    }
}

// The RETURN CODE of a SCSI RESPONSE (003, table 21); of a SCSI STATUS (table 9) the first and the last alone. A byte with
// associated constants, as page 01 asks, and StatusByte too: the reply writer takes any, and refuses others by 14.
#[derive(Clone, Copy, PartialEq, Eq)]
pub struct ReturnCode(pub u8);

impl ReturnCode {
    pub const DONE: ReturnCode = ReturnCode(0x00);

    pub const TASK_NOT_FOUND: ReturnCode = ReturnCode(0x01);

    pub const OVERLAPPED: ReturnCode = ReturnCode(0x04);

    pub const NO_ACA: ReturnCode = ReturnCode(0x20);

    pub const INVALID_FIELD: ReturnCode = ReturnCode(0xff);
}

// The STATUS of a SCSI STATUS, as SCSI-3 defines it.
#[derive(Clone, Copy, PartialEq, Eq)]
pub struct StatusByte(pub u8);

impl StatusByte {
    pub const GOOD: StatusByte = StatusByte(0x00);

    pub const CHECK_CONDITION: StatusByte = StatusByte(0x02);

    pub const CONDITION_MET: StatusByte = StatusByte(0x04);

    pub const RESERVATION_CONFLICT: StatusByte = StatusByte(0x18);

    pub const TASK_SET_FULL: StatusByte = StatusByte(0x28);

    pub const ACA_ACTIVE: StatusByte = StatusByte(0x30);
}

// What the sense data says (003, table 10): SENSE KEY, ADDITIONAL SENSE CODE and its qualifier.
#[derive(Clone, Copy, PartialEq, Eq)]
pub struct Sense {
    pub key: u8,
    pub code: u8,
    pub qualifier: u8,
}

impl Sense {
    pub const NONE: Sense = Sense {
        key: 0x00,
        code: 0x00,
        qualifier: 0x00,
    };

    // Rule 6: the LUN is not attached.
    pub const NO_SUCH_UNIT: Sense = Sense {
        key: 0x05,
        code: 0x25,
        qualifier: 0x00,
    };

    // Rule 7: kind ACA on a unit with no ACA.
    pub const NO_ACA_THERE: Sense = Sense {
        key: 0x05,
        code: 0x49,
        qualifier: 0x00,
    };

    // Rule 8: reset attention.
    pub const RESET_OCCURRED: Sense = Sense {
        key: 0x06,
        code: 0x29,
        qualifier: 0x00,
    };

    // Rule 8: cleared attention.
    pub const CLEARED_BY_ANOTHER: Sense = Sense {
        key: 0x06,
        code: 0x2f,
        qualifier: 0x00,
    };

    // Rule 9: the command block has no length.
    pub const UNKNOWN_COMMAND: Sense = Sense {
        key: 0x05,
        code: 0x20,
        qualifier: 0x00,
    };

    // Rule 10: LINK or FLAG.
    pub const INVALID_IN_BLOCK: Sense = Sense {
        key: 0x05,
        code: 0x24,
        qualifier: 0x00,
    };
}

// Byte 8 of a STATUS with sense, and byte 15 (003, table 10).
pub const CURRENT_ERROR: u8 = 0x70;

pub const ADDITIONAL_SENSE_LENGTH: u8 = 0x0a;

// QUEUE CNTL (003, table 6): how a command is queued. The first is the zero of a wiped record.
#[derive(Clone, Copy, PartialEq, Eq)]
pub enum Kind {
    Aca,
    Head,
    Ordered,
    Simple,
}

impl Kind {
    // Its number in the field.
    pub fn number(self) -> u8
        ensures { result ≡ kind_number self }
    {
        match self {
            Kind::Aca => 0,
            Kind::Head => 1,
            Kind::Ordered => 2,
            Kind::Simple => 3,
        }
    }
}

// The kind that the field's number says: it has two bits, so the last is number 3.
impl From<u8> for Kind {
    ghost from_gives = { λ b k. k ≡ kind_of b };

    fn from(b: u8) -> Kind {
        match b {
            0 => Kind::Aca,
            1 => Kind::Head,
            2 => Kind::Ordered,
            _ => Kind::Simple,
        }
    }
}
