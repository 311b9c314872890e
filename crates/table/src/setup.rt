// The all-zero table, and the table that setup gives.
ghost use Rattle.std.specs.Prelude.{◌≡◌, ◌≤◌, length};
ghost use Rattle.table.specs.Tables.{zero_table};
ghost use Rattle.table.specs.Setup.{bad_list, setup_table, paths_of};

use crate::{Attention, PATHS, Path, Table, UNITS};
use task::RECORDS;

// Whether the list has no path, over 8, or an id twice.
#[tactic(auto, using(crate::proofs::Setting::bad_ways), unfolding(crate::specs::Setup::bad_list))]
pub fn bad_list(ids: &[u32]) -> bool
    ensures { result ≡ bad_list ids.now }
{
    if ids.is_empty() || ids.len() > PATHS {
        return true;
    }
    for (i, id) in ids.iter().enumerate() {
        if ids[..i].contains(id) {
            return true;
        }
    }
    false
}

// The path list of setup: each id with no mark and reset attention, the rest wiped.
#[tactic(auto, using(crate::proofs::Setting::list_loop))]
fn listed(ids: &[u32]) -> [Path; PATHS]
    requires { length ids.now ≤ 8 }
    ensures { result ≡ paths_of ids.now }
{
    let mut paths = [crate::paths::no_path(); PATHS];
    for (i, id) in ids.iter().enumerate() {
        paths[i] = Path {
            id: *id,
            full: false,
            attention: Attention::Reset,
        };
    }
    paths
}

impl Table {
    // No path, no unit, no task.
    #[tactic(auto, unfolding(crate::specs::Tables::zero_table))]
    pub fn zero() -> Table
        ensures { result ≡ zero_table }
    {
        Table {
            live: 0,
            next: 0,
            count: 0,
            attached: 0,
            paths: [crate::paths::no_path(); PATHS],
            units: [crate::units::no_unit(); UNITS],
            tasks: [task::no_task(); RECORDS],
        }
    }

    // The table that setup gives, and the all-zero one for a bad list of paths.
    #[tactic(auto, using(crate::proofs::Setting::setup_ways))]
    pub fn new(ids: &[u32], attached: u8, first: u64) -> Table
        ensures { result ≡ setup_table ids.now attached first }
    {
        let mut t = Table::zero();
        if bad_list(ids) {
            return t;
        }
        t.next = first;
        t.count = ids.len() as u8;
        t.attached = attached;
        t.paths = listed(ids);
        t
    }
}
