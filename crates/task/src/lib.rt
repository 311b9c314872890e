// A task's record, the map of live records, which tasks a selection picks, and the scan of lent records. It knows no
// message and no table.
#![tactic(auto)]

ghost use Rattle.std.specs.Prelude.{◌≡◌};
ghost use Rattle.task.specs.Tasks.{no_task, is_aca, is_waiting, is_running, is_end, has_confirm};

pub mod map;
pub mod scan;
pub mod select;

// How a task is queued.
pub use wire::codes::Kind;

// The records that a table has, and the bits of the map of live ones.
pub const RECORDS: usize = 64;

// Unconfirmed: the device has finished, and the task waits to be confirmed. The first is the zero of a wiped record,
// here and in Sequel.
#[derive(Clone, Copy, PartialEq, Eq)]
pub enum Phase {
    Waiting,
    Running,
    Unconfirmed,
}

// What follows a finish: the task ends, or with CONFIRM it waits to be confirmed. One enum, since CONFIRM and LINK
// (M-112) never go together.
#[derive(Clone, Copy, PartialEq, Eq)]
pub enum Sequel {
    End,
    Confirm,
}

// A task's record, 24 bytes: fields lie in the order written, the widest first. The path is its place in the path
// list. The position is how many bytes into the command's data: while the task waits or runs, the offset that it
// starts at (that of its last restart, or 0); while it waits to be confirmed, the bytes that the finish said were
// transferred.
#[derive(Clone, Copy, PartialEq, Eq)]
pub struct Task {
    pub arrival: u64,
    pub position: u64,
    pub tag: u16,
    pub path: u8,
    pub unit: u8,
    pub kind: Kind,
    pub phase: Phase,
    pub sequel: Sequel,
}

// The record wiped to zero.
pub fn no_task() -> Task
    ensures { result ≡ no_task }
{
    Task {
        arrival: 0,
        position: 0,
        tag: 0,
        path: 0,
        unit: 0,
        kind: Kind::Aca,
        phase: Phase::Waiting,
        sequel: Sequel::End,
    }
}

pub fn is_aca(k: Kind) -> bool
    ensures { result ≡ is_aca k }
{
    k == Kind::Aca
}

pub fn is_waiting(p: Phase) -> bool
    ensures { result ≡ is_waiting p }
{
    p == Phase::Waiting
}

pub fn is_running(p: Phase) -> bool
    ensures { result ≡ is_running p }
{
    p == Phase::Running
}

pub fn is_end(s: Sequel) -> bool
    ensures { result ≡ is_end s }
{
    s == Sequel::End
}

pub fn has_confirm(s: Sequel) -> bool
    ensures { result ≡ has_confirm s }
{
    s == Sequel::Confirm
}
