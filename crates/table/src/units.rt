// Units: whether one is attached, its ACA, and how that changes. A bad index changes nothing.
ghost use Rattle.std.specs.Prelude.{◌≡◌};
ghost use Rattle.table.specs.Tables;
ghost use Rattle.table.specs.Tables.{unit_at, is_attached, has_aca, owned_by, aca_at, claimed_in, aca_cleared_in};

use crate::{Table, UNITS, Unit};

// A unit wiped to zero.
pub(crate) fn no_unit() -> Unit
    ensures { result ≡ Tables.no_unit }
{
    Unit { aca: None }
}

// Whether there is an ACA.
pub fn has_aca(a: Option<u8>) -> bool
    ensures { result ≡ has_aca a }
{
    a.is_some()
}

// Whether the ACA is owned by the path.
pub fn owned_by(aca: Option<u8>, path: u8) -> bool
    ensures { result ≡ owned_by aca path }
{
    aca == Some(path)
}

// The ACA of a unit, and none past the end.
pub fn aca_at(units: [Unit; UNITS], unit: u8) -> Option<u8>
    ensures { result ≡ aca_at units unit }
{
    crate::at_or(&units, unit as usize, no_unit()).aca
}

// The unit gets ACA owned by the path, unless it has one: where a finish failed, and where a rule holds the queue.
#[tactic(auto, using(crate::proofs::Changing::owner_ways), unfolding(crate::specs::Tables::claimed_in))]
pub fn claim(mut units: [Unit; UNITS], unit: u8, path: u8) -> [Unit; UNITS]
    ensures { result ≡ claimed_in units unit path }
{
    let u = unit as usize;
    if u < UNITS && !has_aca(units[u].aca) {
        units[u].aca = Some(path);
    }
    units
}

// The unit's ACA goes, Some(unit), or that of every unit, None.
#[tactic(auto, unfolding(crate::specs::Tables::aca_cleared_in))]
pub fn clear_aca(mut units: [Unit; UNITS], place: Option<u8>) -> [Unit; UNITS]
    ensures { result ≡ aca_cleared_in units place }
{
    let none = no_unit();
    match place {
        None => [none; UNITS],
        Some(unit) => {
            let u = unit as usize;
            if u >= UNITS {
                return units;
            }
            units[u] = none;
            units
        }
    }
}

impl Table {
    // A unit, and a wiped one past the end. The units alone are copied, as the paths are in `path_at`.
    pub fn unit_at(self, unit: u8) -> Unit
        ensures { result ≡ unit_at self unit }
    {
        let units = self.units;
        crate::at_or(&units, unit as usize, no_unit())
    }

    // Whether the unit is attached.
    pub fn is_attached(self, unit: u8) -> bool
        ensures { result ≡ is_attached self unit }
    {
        crate::paths::bit_of(self.attached, unit as usize)
    }
}
