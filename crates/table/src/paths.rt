// Paths: what the rules ask of them, and how they change. A bad index changes nothing.
ghost use Rattle.std.specs.Prelude.{◌≡◌};
ghost use Rattle.table.specs.Tables;
ghost use Rattle.table.specs.Tables.{path_at, has_id, place_of, path_of, if_listed, is_nothing, is_reset, is_cleared, marked_in, attention_gone_in, with_reset_attention, reset_attention_in, with_cleared_attention, cleared_attention_in};

use crate::{Attention, PATHS, Path, Table};

// A path wiped to zero.
pub(crate) fn no_path() -> Path
    ensures { result ≡ Tables.no_path }
{
    Path {
        id: 0,
        full: false,
        attention: Attention::Nothing,
    }
}

// Whether bit i of a map of paths or units is 1; there are as many of the one as of the other, and none past the
// last.
pub fn bit_of(map: u8, i: usize) -> bool
    ensures { result ≡ Tables.bit_of map i }
{
    task::map::is_live(u64::from(map), i)
}

// Which attention is pending.
pub fn is_nothing(a: Attention) -> bool
    ensures { result ≡ is_nothing a }
{
    a == Attention::Nothing
}

pub fn is_reset(a: Attention) -> bool
    ensures { result ≡ is_reset a }
{
    a == Attention::Reset
}

pub fn is_cleared(a: Attention) -> bool
    ensures { result ≡ is_cleared a }
{
    a == Attention::Cleared
}

// The path with reset attention, and with `unmark` its mark gone.
fn with_reset_attention(a: Path, unmark: bool) -> Path
    ensures { result ≡ with_reset_attention unmark a }
{
    Path {
        full: a.full && !unmark,
        attention: Attention::Reset,
        ..a
    }
}

// The path with cleared attention, unless reset is pending. (One function with the last would be a test of two bools.)
fn with_cleared_attention(a: Path) -> Path
    ensures { result ≡ with_cleared_attention a }
{
    if is_reset(a.attention) {
        return a;
    }
    Path {
        attention: Attention::Cleared,
        ..a
    }
}

// The place of an id among the first `count` of the paths.
#[tactic(auto, using(task::proofs::Loops::first_loop))]
pub fn place_of(paths: [Path; PATHS], count: u8, id: u32) -> Option<usize>
    ensures { result ≡ if_listed (place_of paths count id) }
{
    for (p, a) in paths.iter().enumerate() {
        if has_id(count as usize, id, p, *a) {
            return Some(p);
        }
    }
    None
}

// Whether the path a at place p is listed and has the id.
fn has_id(count: usize, id: u32, p: usize, a: Path) -> bool
    ensures { result ≡ has_id count id p a }
{
    p < count && a.id == id
}

// The path's mark set or cleared. (This and `drop_attention` as one function, with the change as a closure, are no
// plainer.)
#[tactic(auto, unfolding(crate::specs::Tables::marked_in))]
pub fn mark(mut paths: [Path; PATHS], p: usize, full: bool) -> [Path; PATHS]
    ensures { result ≡ marked_in paths p full }
{
    if p < PATHS {
        paths[p].full = full;
    }
    paths
}

// The path's pending attention becomes none.
#[tactic(auto, unfolding(crate::specs::Tables::attention_gone_in))]
pub fn drop_attention(mut paths: [Path; PATHS], p: usize) -> [Path; PATHS]
    ensures { result ≡ attention_gone_in paths p }
{
    if p < PATHS {
        paths[p].attention = Attention::Nothing;
    }
    paths
}

// Reset attention on each of the first `count` paths, and with `unmark` its mark gone.
#[tactic(auto, using(crate::proofs::Changing::paths_start))]
pub fn give_reset_attention(mut paths: [Path; PATHS], count: u8, unmark: bool) -> [Path; PATHS]
    ensures { result ≡ reset_attention_in paths count unmark }
{
    for (p, a) in paths.iter_mut().enumerate() {
        if p < count as usize {
            *a = with_reset_attention(*a, unmark);
        }
    }
    paths
}

// Cleared attention on each path of the map, unless reset is pending. (A helper for both loops, with the test and the
// change as closures, is no plainer.)
#[tactic(auto, using(crate::proofs::Changing::paths_start))]
pub fn give_cleared_attention(mut paths: [Path; PATHS], others: u8) -> [Path; PATHS]
    ensures { result ≡ cleared_attention_in paths others }
{
    for (p, a) in paths.iter_mut().enumerate() {
        if bit_of(others, p) {
            *a = with_cleared_attention(*a);
        }
    }
    paths
}

impl Table {
    // The place of an id among the listed paths.
    #[tactic(auto, using(crate::proofs::Listed::place_fits))]
    pub fn path_of(self, id: u32) -> Option<u8>
        ensures { result ≡ if_listed (path_of self id) }
    {
        Some(place_of(self.paths, self.count, id)? as u8)
    }

    // The path at a place, and a wiped one past the end. The paths alone are copied: lent out of the table, they have
    // the compiler copy all of it.
    pub fn path_at(self, p: usize) -> Path
        ensures { result ≡ path_at self p }
    {
        let paths = self.paths;
        crate::at_or(&paths, p, no_path())
    }
}
