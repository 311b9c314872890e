// The task table: 64 records, 8 paths, 8 units, by value. Every call of the engine takes one and hands back the next.
// It knows no message.
#![tactic(auto)]

pub mod changes;
pub mod paths;
pub mod setup;
pub mod steps;
pub mod units;

ghost use Rattle.std.specs.Prelude.{◌≡◌, get_or};

use task::{RECORDS, Task};

// A path's pending unit attention. The first variant is the zero of a wiped record, and none is pending then: with an
// Option each of the three would be two words, and no plainer.
#[derive(Clone, Copy, PartialEq, Eq)]
pub enum Attention {
    Nothing,
    Reset,
    Cleared,
}

// A return path: its id, its buffer-full mark, its pending attention.
#[derive(Clone, Copy, PartialEq, Eq)]
pub struct Path {
    pub id: u32,
    pub full: bool,
    pub attention: Attention,
}

// A unit: the owner of its auto contingent allegiance, as the path's place in the path list, or none.
#[derive(Clone, Copy)]
pub struct Unit {
    pub aca: Option<u8>,
}

// The table: which records are live, the next arrival number, how many paths are listed, the mask of attached units. Its
// size is fixed, and a path past the count is all zero, as a sound table asks: so an array and a count, and no Vec.
#[derive(Clone, Copy)]
pub struct Table {
    pub live: u64,
    pub next: u64,
    pub count: u8,
    pub attached: u8,
    pub paths: [Path; PATHS],
    pub units: [Unit; UNITS],
    pub tasks: [Task; RECORDS],
}

// The table's limits, beside task::RECORDS.
pub const PATHS: usize = 8;

// The same limit as a byte, in which a table counts its paths and names their places.
pub(crate) const MOST_PATHS: u8 = PATHS as u8;

pub const UNITS: usize = 8;

// The last arrival number that a command can take: 2^64 - 2.
pub const LAST_ARRIVAL: u64 = 0xffff_ffff_ffff_fffe;

// The element at a place, and `none` past the end. (`get`, `copied` and `unwrap_or` would be no plainer.)
fn at_or<T: Copy>(xs: &[T], i: usize, none: T) -> T
    ensures { result ≡ get_or xs.now i none }
{
    if i < xs.len() { xs[i] } else { none }
}
