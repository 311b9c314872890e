// A selection names tasks: by path, tag, unit, kind, arrival number and phase, each asked or not.
ghost use Rattle.std.specs.Prelude.{◌≡◌};
ghost use Rattle.task.specs.Selections;
ghost use Rattle.task.specs.Selections.{asked, whose_asked, picks, picks_live};

use crate::{Kind, Phase, Task};

// Three ways, which no Option has. A tag means nothing without its path, so it can't be asked for alone.
#[derive(Clone, Copy)]
pub enum Whose {
    Anyone,
    From(u8),
    Named(u8, u16),
}

// What a task must have: each part is None where nothing is asked. The number is the arrival number.
#[derive(Clone, Copy)]
pub struct Selection {
    pub number: Option<u64>,
    pub whose: Whose,
    pub unit: Option<u8>,
    pub kind: Option<Kind>,
    pub phase: Option<Phase>,
}

// The selections that the rules speak of. A path is its place in the path list.
impl Selection {
    // Every task: what the others narrow.
    pub const ALL: Selection = Selection {
        number: None,
        whose: Whose::Anyone,
        unit: None,
        kind: None,
        phase: None,
    };

    // The task of a path with a tag, on any unit.
    pub fn named(path: u8, tag: u16) -> Selection
        ensures { result ≡ Selections.named path tag }
    {
        Selection {
            whose: Whose::Named(path, tag),
            ..Selection::ALL
        }
    }

    // The same with an arrival number.
    pub fn numbered_as(arrival: u64, path: u8, tag: u16) -> Selection
        ensures { result ≡ Selections.numbered_as arrival path tag }
    {
        Selection {
            number: Some(arrival),
            whose: Whose::Named(path, tag),
            ..Selection::ALL
        }
    }

    // All tasks on a unit, and those of one path there.
    pub fn on_unit(unit: u8) -> Selection
        ensures { result ≡ Selections.on_unit unit }
    {
        Selection {
            unit: Some(unit),
            ..Selection::ALL
        }
    }

    pub fn from_on(path: u8, unit: u8) -> Selection
        ensures { result ≡ Selections.from_on path unit }
    {
        Selection {
            whose: Whose::From(path),
            unit: Some(unit),
            ..Selection::ALL
        }
    }

    // The ACA task on a unit, and that of one path there.
    pub fn aca_on(unit: u8) -> Selection
        ensures { result ≡ Selections.aca_on unit }
    {
        Selection {
            unit: Some(unit),
            kind: Some(Kind::Aca),
            ..Selection::ALL
        }
    }

    pub fn aca_from_on(path: u8, unit: u8) -> Selection
        ensures { result ≡ Selections.aca_from_on path unit }
    {
        Selection {
            whose: Whose::From(path),
            unit: Some(unit),
            kind: Some(Kind::Aca),
            ..Selection::ALL
        }
    }

    // What runs on a unit, what waits there, and the ACA task that waits there.
    pub fn running_on(unit: u8) -> Selection
        ensures { result ≡ Selections.running_on unit }
    {
        Selection {
            unit: Some(unit),
            phase: Some(Phase::Running),
            ..Selection::ALL
        }
    }

    pub fn waiting_on(unit: u8) -> Selection
        ensures { result ≡ Selections.waiting_on unit }
    {
        Selection {
            unit: Some(unit),
            phase: Some(Phase::Waiting),
            ..Selection::ALL
        }
    }

    pub fn aca_waiting_on(unit: u8) -> Selection
        ensures { result ≡ Selections.aca_waiting_on unit }
    {
        Selection {
            unit: Some(unit),
            kind: Some(Kind::Aca),
            phase: Some(Phase::Waiting),
            ..Selection::ALL
        }
    }

    // The running task with an arrival number.
    pub fn running_as(n: u64) -> Selection
        ensures { result ≡ Selections.running_as n }
    {
        Selection {
            number: Some(n),
            phase: Some(Phase::Running),
            ..Selection::ALL
        }
    }
}

// Whether the path and the tag are those that are asked for.
fn whose_asked(w: Whose, path: u8, tag: u16) -> bool
    ensures { result ≡ whose_asked w path tag }
{
    match w {
        Whose::Anyone => true,
        Whose::From(p) => path == p,
        Whose::Named(p, t) => path == p && tag == t,
    }
}

// Whether a part asks for nothing, or for x.
fn asked<T: Copy + PartialEq>(part: Option<T>, x: T) -> bool
    ensures { result ≡ asked T.eq part x }
{
    part.is_none_or(|p| x == p)
}

// Whether the selection picks the task.
#[tactic(auto, unfolding(crate::specs::Selections::picks))]
fn picked(s: Selection, a: Task) -> bool
    ensures { result ≡ picks s a }
{
    asked(s.number, a.arrival)
        && whose_asked(s.whose, a.path, a.tag)
        && asked(s.unit, a.unit)
        && asked(s.kind, a.kind)
        && asked(s.phase, a.phase)
}

// Whether record i is live and the selection picks the task a in it. (The map, the place and the record as a struct
// would be made for each record of a loop, to be taken apart at once: no plainer.)
pub fn picked_live(live: u64, s: Selection, i: usize, a: Task) -> bool
    ensures { result ≡ picks_live live s i a }
{
    crate::map::is_live(live, i) && picked(s, a)
}
