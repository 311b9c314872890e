// The tables that messages are read by: a row for each kind of message in the order of 003's table 4, and the lengths
// of command blocks. They stand side by side as constant arrays, as page 01 asks.
use crate::codes::{
    ABORT_TASK, ABORT_TASK_SET, CLEAR_ACA, CLEAR_TASK_SET, CONFIRM_STATUS, LOGICAL_UNIT_RESET,
    SCSI_COMMAND, TARGET_RESET,
};

// The S3P CODE of each row.
pub(crate) const CODES: [u8; 8] = [
    SCSI_COMMAND,
    CONFIRM_STATUS,
    ABORT_TASK,
    ABORT_TASK_SET,
    CLEAR_TASK_SET,
    TARGET_RESET,
    CLEAR_ACA,
    LOGICAL_UNIT_RESET,
];

// The minimum length of each row: 11 bytes for a command, whose block rule 2 asks for; the whole table length for the
// others.
pub(crate) const LENGTHS: [usize; 8] = [11, 17, 10, 9, 9, 8, 9, 9];

// The reserved bits of the first 17 bytes of each row: a command has bytes 9, 11, 14 and 15, and bits 3 and 2 of byte
// 10; CONFIRM STATUS bits 6 to 0 of byte 16.
const COMMAND: [u8; 17] = [0, 0, 0, 0, 0, 0, 0, 0, 0, 255, 12, 255, 0, 0, 255, 255, 0];

const CONFIRM: [u8; 17] = [0, 0, 0, 0, 0, 0, 0, 0, 0, 0, 0, 0, 0, 0, 0, 0, 127];

const NONE: [u8; 17] = [0, 0, 0, 0, 0, 0, 0, 0, 0, 0, 0, 0, 0, 0, 0, 0, 0];

pub(crate) const MASKS: [[u8; 17]; 8] = [COMMAND, CONFIRM, NONE, NONE, NONE, NONE, NONE, NONE];

// The length of a command block by its opcode group, bits 7 to 5 of its first byte; 0 where the group has none.
pub(crate) const BLOCK_LENGTHS: [usize; 8] = [6, 10, 10, 0, 16, 12, 0, 0];
