// The messages that are sent. A path's id is one byte here.
ghost use Rattle.std.specs.Prelude.{◌≤◌};

use wire::codes::{ABORT_TASK, CLEAR_TASK_SET, INQUIRY, Kind, SCSI_COMMAND, SMS_CODE};

// A message of N bytes that are zero but for its S3P CODE and its path.
fn message<const N: usize>(code: u8, path: u8) -> [u8; N]
    requires { 8 ≤ N }
{
    let mut m = [0; N];
    m[0] = SMS_CODE;
    m[1] = code;
    m[7] = path;
    m
}

// A SCSI COMMAND to unit 0. INQUIRY is accepted while the reset attention is pending.
pub(crate) fn command(path: u8, tag: u16) -> [u8; 22] {
    let mut m = message(SCSI_COMMAND, path);
    [m[2], m[3]] = tag.to_be_bytes();
    m[10] = Kind::Simple.number();
    m[16] = INQUIRY;
    m
}

// An ABORT TASK of the path's task that has the tag. Its own TAG is 0.
pub(crate) fn abort_task(path: u8, tag: u16) -> [u8; 10] {
    let mut m = message(ABORT_TASK, path);
    [m[8], m[9]] = tag.to_be_bytes();
    m
}

// A CLEAR TASK SET of a unit. Its TAG is 0.
pub(crate) fn clear_task_set(path: u8, unit: u8) -> [u8; 9] {
    let mut m = message(CLEAR_TASK_SET, path);
    m[8] = unit;
    m
}
