// The clauses of page 01's "Sound means": a small function for each, of one path, one unit, one record or two.
ghost use Rattle.std.specs.Prelude.{◌≡◌};
ghost use Rattle.table.specs.Tables.{aca_at};
ghost use Rattle.sound.specs.Sound;
ghost use Rattle.sound.specs.Sound.{is_no_path, is_no_task, may_stand, live_ok, record_ok, unit_ok, cannot_share_unit, clash_of};

use table::{Path, Table, Unit};
use task::Task;

// A path all zero.
pub(crate) fn is_no_path(a: Path) -> bool
    ensures { result ≡ is_no_path a }
{
    a.id == 0 && !a.full && table::paths::is_nothing(a.attention)
}

// A record all zero.
pub fn is_no_task(a: Task) -> bool
    ensures { result ≡ is_no_task a }
{
    a.arrival == 0
        && a.position == 0
        && a.tag == 0
        && a.path == 0
        && a.unit == 0
        && task::is_aca(a.kind)
        && task::is_waiting(a.phase)
        && task::is_end(a.sequel)
}

// An ACA task only on a unit with ACA, only from its owner.
fn may_stand(aca: Option<u8>, a: Task) -> bool
    ensures { result ≡ may_stand aca a }
{
    !task::is_aca(a.kind) || table::units::owned_by(aca, a.path)
}

// A live record names a listed path and an attached unit, its arrival number lies below the next, and it may stand
// under its unit's ACA.
fn live_ok(t: &Table, a: Task) -> bool
    ensures { result ≡ live_ok t.now.next t.now.count t.now.attached (aca_at t.now.units a.unit) a }
{
    a.path < t.count
        && table::paths::bit_of(t.attached, a.unit as usize)
        && a.arrival < t.next
        && may_stand(table::units::aca_at(t.units, a.unit), a)
}

// Record i: a live task in order, or a dead record all zero.
pub(crate) fn record_ok(t: &Table, i: usize, a: Task) -> bool
    ensures { let aca = aca_at t.now.units a.unit in result ≡ record_ok t.now.live t.now.next t.now.count t.now.attached aca i a }
{
    if task::map::is_live(t.live, i) {
        live_ok(t, a)
    } else {
        is_no_task(a)
    }
}

// A unit's ACA only if it is attached, with a listed owner.
pub(crate) fn unit_ok(t: &Table, u: usize, a: Unit) -> bool
    ensures { result ≡ unit_ok t.now.count t.now.attached u a }
{
    match a.aca {
        None => true,
        Some(p) => p < t.count && table::paths::bit_of(t.attached, u),
    }
}

// Two tasks that can't both be live: they share an arrival number, path and tag, or a unit on which both run or both
// are ACA tasks.
fn alike(a: Task, b: Task) -> bool
    ensures { result ≡ Sound.alike a b }
{
    a.arrival == b.arrival
        || (a.path == b.path && a.tag == b.tag)
        || (cannot_share_unit(a, b) && a.unit == b.unit)
}

// Both run, or both are ACA tasks.
fn cannot_share_unit(a: Task, b: Task) -> bool
    ensures { result ≡ cannot_share_unit a b }
{
    (task::is_running(a.phase) && task::is_running(b.phase))
        || (task::is_aca(a.kind) && task::is_aca(b.kind))
}

// Records i and j hold the tasks a and b that can't both be live, and are.
pub(crate) fn clash(live: u64, i: usize, a: Task, j: usize, b: Task) -> bool
    ensures { result ≡ clash_of live i a j b }
{
    alike(a, b) && task::map::is_live(live, i) && task::map::is_live(live, j)
}
