// The soundness check: is a table one that the calls may work on? Each clause of page 01's "Sound means" over all paths,
// units and records, and the pairwise walk.
#![tactic(auto)]

ghost use Rattle.std.specs.Prelude.{◌≡◌};
ghost use Rattle.sound.specs.Sound;
ghost use Rattle.sound.specs.Sound.{count_ok, paths_distinct, unused_zero, records_ok, units_ok, sound_of};

use crate::clauses::{clash, is_no_path, record_ok, unit_ok};
use crate::seen::WORDS;
use table::{PATHS, Table, UNITS};
use task::RECORDS;

pub mod clauses;
mod seen;

// 1 to 8 paths.
#[tactic(auto, unfolding(crate::specs::Sound::count_ok))]
fn count_ok(t: Table) -> bool
    ensures { result ≡ count_ok t }
{
    t.count != 0 && t.count as usize <= PATHS
}

// Every listed path is the first with its id.
#[tactic(auto, using(task::proofs::Loops::all_loop), unfolding(crate::specs::Sound::paths_distinct))]
fn paths_distinct(t: Table) -> bool
    ensures { result ≡ paths_distinct t }
{
    for (p, a) in t.paths.iter().enumerate() {
        if p < t.count as usize && table::paths::place_of(t.paths, t.count, a.id) != Some(p) {
            return false;
        }
    }
    true
}

// Unused paths all zero.
#[tactic(auto, using(task::proofs::Loops::all_loop), unfolding(crate::specs::Sound::unused_zero))]
fn unused_zero(t: Table) -> bool
    ensures { result ≡ unused_zero t }
{
    for (p, a) in t.paths.iter().enumerate() {
        if p >= t.count as usize && !is_no_path(*a) {
            return false;
        }
    }
    true
}

// Each record: a live one in order, a dead one all zero.
#[tactic(auto, using(task::proofs::Loops::all_loop), unfolding(crate::specs::Sound::records_ok))]
fn records_ok(t: Table) -> bool
    ensures { result ≡ records_ok t }
{
    for (i, a) in t.tasks.iter().enumerate() {
        if !record_ok(&t, i, *a) {
            return false;
        }
    }
    true
}

// Each unit's ACA.
#[tactic(auto, using(task::proofs::Loops::all_loop), unfolding(crate::specs::Sound::units_ok))]
fn units_ok(t: Table) -> bool
    ensures { result ≡ units_ok t }
{
    for (u, a) in t.units.iter().enumerate() {
        if !unit_ok(&t, u, *a) {
            return false;
        }
    }
    true
}

// The pairwise walk over the records, left at the first clash. A live record is held against those below it only where
// the map of what was seen says that one of them may share something with it. It is left by its label, as page 01 asks.
#[tactic(auto, using(task::proofs::Loops::some_loop))]
fn clashes(t: Table) -> bool
    ensures { result ≡ Sound.clashes t }
{
    let mut seen = [0u64; WORDS];
    let mut found = false;
    'walk: for i in 0..RECORDS {
        let a = t.tasks[i];
        if task::map::is_live(t.live, i) {
            if crate::seen::may_clash(&seen, a) {
                for j in 0..i {
                    let b = t.tasks[j];
                    if clash(t.live, i, a, j, b) {
                        found = true;
                        break 'walk;
                    }
                }
            }
            crate::seen::set_bits(&mut seen, a);
        }
    }
    found
}

// Whether the table is sound.
#[tactic(auto, unfolding(crate::specs::Sound::sound_of))]
pub fn is_sound(t: Table) -> bool
    ensures { result ≡ sound_of t }
{
    count_ok(t)
        && paths_distinct(t)
        && unused_zero(t)
        && records_ok(t)
        && units_ok(t)
        && !clashes(t)
}
