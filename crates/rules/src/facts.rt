// What the rules and orders go by: asked of the table once, so that no table travels through them.
ghost use Rattle.std.specs.Prelude.{◌≡◌, cond};
ghost use Rattle.table.specs.Tables.{others_on};
ghost use Rattle.rules.specs.Facts.{lookup_of, unit_alone};

use table::{Attention, Table};
use task::scan::Pick;
use task::select::Selection;

// What the rules ask of the table.
#[derive(Clone, Copy)]
pub struct Facts {
    // The sender's buffer-full mark and pending attention.
    pub marked: bool,
    pub attention: Attention,
    // A record is free and an arrival number is left.
    pub room: bool,
    // A live task has the sender's path and the tag.
    pub taken: bool,
    // The unit is attached, has ACA, the sender owns it, an ACA task is live there.
    pub attached: bool,
    pub aca: bool,
    pub owned: bool,
    pub busy: bool,
}

// What was looked up in the table: the facts, the sender's live task with the tag, if there is one, and the map of
// the other paths that have a task on the unit.
#[derive(Clone, Copy)]
pub struct Lookup {
    pub facts: Facts,
    pub own: Option<Pick>,
    pub others: u8,
}

// What is asked of the table for the path at p, about its task with a tag and about a unit. Who else has a task on
// the unit is one more pass over the records: it is asked with `clears` alone. (CLEAR TASK SET asks it by itself, beside
// unit_alone, so no call sets `clears` now.)
#[tactic(auto, unfolding(crate::specs::Facts::facts_of, crate::specs::Facts::lookup_of, table::specs::Steps::holders_of))]
pub fn look_up(t: Table, p: u8, tag: u16, lun: u8, clears: bool) -> Lookup
    ensures { result ≡ lookup_of t p tag lun (cond clears (others_on t lun p) 0) }
{
    let sender = t.path_at(p as usize);
    let attention = sender.attention;
    let unit = t.unit_at(lun);
    let aca = unit.aca;
    let own = t.pick(Selection::named(p, tag));
    let aca_held = t.holders(Selection::aca_on(lun));
    let others = if clears { t.others_on(lun, p) } else { 0 };
    let facts = Facts {
        marked: sender.full,
        attention,
        room: t.has_room(),
        taken: own.is_some(),
        attached: t.is_attached(lun),
        aca: table::units::has_aca(aca),
        owned: table::units::owned_by(aca, p),
        busy: aca_held.is_some(),
    };
    Lookup { facts, own, others }
}

// What an order that goes by its unit alone asks: whether the unit is attached, and with CLEAR TASK SET the other paths
// that have a task there. All else is left at none.
#[tactic(auto, unfolding(crate::specs::Facts::unit_alone))]
pub fn unit_alone(attached: bool, others: u8) -> Lookup
    ensures { result ≡ unit_alone attached others }
{
    let facts = Facts {
        marked: false,
        attention: Attention::Nothing,
        room: false,
        taken: false,
        attached,
        aca: false,
        owned: false,
        busy: false,
    };
    Lookup {
        facts,
        own: None,
        others,
    }
}
