// The table on a line, and a field of it set: so tables that are not sound are made.
use crate::engine_cases::{arrival, bad};
use crate::print::{counted_if, word_if};
use std::io;
use table::{Attention, PATHS, Path, Table, UNITS, Unit};
use task::map::{is_live, with_bit, without_bit};
use task::{Kind, Phase, RECORDS, Sequel, Task};

// Whether a path is all zero.
fn no_path(a: Path) -> bool {
    a == Path {
        id: 0,
        full: false,
        attention: Attention::Nothing,
    }
}

// A path's id, mark and attention.
fn path_fields(rt: &impl Print, a: Path) -> io::Result<()> {
    print!(rt; "{:08X}", a.id)?;
    word_if(rt, " full", a.full)?;
    let pending = a.attention;
    match pending {
        Attention::Nothing => Ok(()),
        Attention::Reset => rt.write_all(b" reset"),
        Attention::Cleared => rt.write_all(b" cleared"),
    }
}

// The paths that are listed or not all zero.
fn show_paths(rt: &impl Print, t: Table) -> io::Result<()> {
    for (p, a) in t.paths.iter().enumerate() {
        if p < t.count as usize {
            rt.write_all(b"; path ")?;
        } else if no_path(*a) {
            continue;
        } else {
            print!(rt; "; unused {p} ")?;
        }
        path_fields(rt, *a)?;
    }
    Ok(())
}

// The units that have ACA, and the owner's place.
fn show_units(rt: &impl Print, t: Table) -> io::Result<()> {
    for (u, a) in t.units.iter().enumerate() {
        if let Some(p) = a.aca {
            print!(rt; "; aca {u} of {p}")?;
        }
    }
    Ok(())
}

fn kind_word(k: Kind) -> &'static str {
    match k {
        Kind::Aca => "aca",
        Kind::Head => "head",
        Kind::Ordered => "ordered",
        Kind::Simple => "simple",
    }
}

fn phase_word(p: Phase) -> &'static str {
    match p {
        Phase::Waiting => "waiting",
        Phase::Running => "running",
        Phase::Unconfirmed => "unconfirmed",
    }
}

// A record's position: bytes transferred while the task waits to be confirmed, else an offset.
fn position_word(p: Phase) -> &'static str {
    match p {
        Phase::Waiting | Phase::Running => " offset ",
        Phase::Unconfirmed => " transferred ",
    }
}

// A record's path, tag, unit, kind, phase and arrival number; what it keeps for CONFIRM, where that is not zero.
fn task_fields(rt: &impl Print, a: Task) -> io::Result<()> {
    let (kind, phase, sequel) = (a.kind, a.phase, a.sequel);
    print!(rt; " path {} tag {:04X} unit {}", a.path, a.tag, a.unit)?;
    print!(rt; " {} {} {}", kind_word(kind), phase_word(phase), a.arrival)?;
    word_if(rt, " confirm", task::has_confirm(sequel))?;
    counted_if(rt, position_word(phase), a.position)
}

// The records that are live or not all zero.
fn show_tasks(rt: &impl Print, t: Table) -> io::Result<()> {
    for (i, a) in t.tasks.iter().enumerate() {
        if is_live(t.live, i) {
            print!(rt; "; task {i}")?;
        } else if sound::clauses::is_no_task(*a) {
            continue;
        } else {
            print!(rt; "; dead {i}")?;
        }
        task_fields(rt, *a)?;
    }
    Ok(())
}

// The table: all of it that is not zero.
pub(crate) fn show(rt: &impl Print, t: Table) -> io::Result<()> {
    word_if(rt, "not ", !sound::is_sound(t))?;
    print!(rt; "sound next {} count {}", t.next, t.count)?;
    print!(rt; " attached {:02X} live {:016X}", t.attached, t.live)?;
    show_paths(rt, t)?;
    show_units(rt, t)?;
    show_tasks(rt, t)
}

// A field that can be set.
#[derive(Clone, Copy)]
enum Field {
    Live,
    Next,
    Count,
    Attached,
    OfPath(PathField),
    Owner,
    OfTask(TaskField),
}

#[derive(Clone, Copy)]
enum PathField {
    Id,
    Mark,
    Attention,
}

#[derive(Clone, Copy)]
enum TaskField {
    Arrival,
    Tag,
    Path,
    Unit,
    Kind,
    Phase,
    Transferred,
    Offset,
    Confirm,
}

// The field of a number.
fn field_of(number: u8) -> Option<Field> {
    let field = match number {
        1 => Field::Live,
        2 => Field::Next,
        3 => Field::Count,
        4 => Field::Attached,
        5 => Field::OfPath(PathField::Id),
        6 => Field::OfPath(PathField::Mark),
        7 => Field::OfPath(PathField::Attention),
        8 => Field::Owner,
        9 => Field::OfTask(TaskField::Arrival),
        10 => Field::OfTask(TaskField::Tag),
        11 => Field::OfTask(TaskField::Path),
        12 => Field::OfTask(TaskField::Unit),
        13 => Field::OfTask(TaskField::Kind),
        14 => Field::OfTask(TaskField::Phase),
        15 => Field::OfTask(TaskField::Transferred),
        16 => Field::OfTask(TaskField::Offset),
        17 => Field::OfTask(TaskField::Confirm),
        _ => return None,
    };
    Some(field)
}

// How many places a field has: 64 live bits and records, 8 paths and units, one of the others.
fn places(field: Field) -> usize {
    match field {
        Field::Live | Field::OfTask(_) => RECORDS,
        Field::Next | Field::Count | Field::Attached => 1,
        Field::OfPath(_) => PATHS,
        Field::Owner => UNITS,
    }
}

// None, reset, cleared by another. (This and those below are no `From`: the types are of other crates.)
fn attention_of(value: u8) -> Attention {
    match value {
        0 => Attention::Nothing,
        1 => Attention::Reset,
        _ => Attention::Cleared,
    }
}

// The ACA of an owner, and none for FFh.
fn aca_of(value: u8) -> Option<u8> {
    (value != 0xff).then_some(value)
}

// Waiting, running; 2 and above waits to be confirmed.
fn phase_of(value: u8) -> Phase {
    match value {
        0 => Phase::Waiting,
        1 => Phase::Running,
        _ => Phase::Unconfirmed,
    }
}

// With CONFIRM or without.
fn sequel_of(value: u8) -> Sequel {
    match value {
        0 => Sequel::End,
        _ => Sequel::Confirm,
    }
}

// Sets a field of a path.
fn set_path(a: &mut Path, field: PathField, value: u8) {
    match field {
        PathField::Id => a.id = u32::from(value),
        PathField::Mark => a.full = value != 0,
        PathField::Attention => a.attention = attention_of(value),
    }
}

// Sets a field of a record. Its bytes transferred and its offset are one field.
fn set_task(a: &mut Task, field: TaskField, value: u8) {
    match field {
        TaskField::Arrival => a.arrival = arrival(value),
        TaskField::Tag => a.tag = u16::from(value),
        TaskField::Path => a.path = value,
        TaskField::Unit => a.unit = value,
        TaskField::Kind => a.kind = Kind::from(value),
        TaskField::Phase => a.phase = phase_of(value),
        TaskField::Transferred => a.position = arrival(value),
        TaskField::Offset => a.position = u64::from(value),
        TaskField::Confirm => a.sequel = sequel_of(value),
    }
}

// The map of live records with its bit i set.
fn live_with(live: u64, i: usize, value: u8) -> u64 {
    match value {
        0 => without_bit(live, i),
        _ => with_bit(live, i),
    }
}

// Sets a field of the table at place i.
fn set(t: &mut Table, field: Field, i: usize, value: u8) {
    match field {
        Field::Live => t.live = live_with(t.live, i, value),
        Field::Next => t.next = arrival(value),
        Field::Count => t.count = value,
        Field::Attached => t.attached = value,
        Field::OfPath(of) => {
            if let Some(a) = t.paths.get_mut(i) {
                set_path(a, of, value);
            }
        }
        Field::Owner => {
            if let Some(a) = t.units.get_mut(i) {
                a.aca = aca_of(value);
            }
        }
        Field::OfTask(of) => {
            if let Some(a) = t.tasks.get_mut(i) {
                set_task(a, of, value);
            }
        }
    }
}

// Letter !: a field set, from its number, the place and the value.
pub(crate) fn poke(rt: &impl Print, mut t: Table, c: &[u8]) -> io::Result<Table> {
    let &[number, place, value] = c else {
        return bad(rt, t);
    };
    let i = place as usize;
    match field_of(number) {
        Some(field) if i < places(field) => {
            set(&mut t, field, i, value);
            rt.write_all(b"set")?;
            Ok(t)
        }
        _ => bad(rt, t),
    }
}
