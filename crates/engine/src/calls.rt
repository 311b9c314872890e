// The five calls, and the part of a message that is its command block.
ghost use Rattle.std.specs.Prelude.{◌≡◌};
ghost use Rattle.engine.specs.Calls.{reply_path, refused, heard_of, may_go, may_finish, sent_sense, replied};
ghost use Rattle.engine.specs.Steps.{step_of, chosen_by, judged_by};
ghost use Rattle.engine.specs.Calls.{SetupContract, MessageContract, StartContract, FinishContract, TotalResetContract, CommandBlockContract};
ghost use Rattle.wire.specs.Codes.{status_byte, sense};

use crate::Outcome;
use plan::{Answer, Asked, RecordChange};
use reply::Reply;
use rules::facts::{look_up, unit_alone};
use sound::is_sound;
use table::Table;
use table::steps::{Alteration, Step, finish_step, finish_units};
use task::scan::Pick;
use task::select::Selection;
use wire::codes::{REPLY_ROOM, Refusal, Sense, StatusByte};

// The path that a reply goes to, and 0 where the answer is none.
fn reply_path(a: Result<Answer, Refusal>, path: u32) -> u32
    ensures { result ≡ reply_path a path }
{
    match a {
        Ok(Answer::Reply(_)) => path,
        _ => 0,
    }
}

// What is heard: nothing on a table that is not sound or with a buffer that is too small; else what the message asks.
#[tactic(auto, unfolding(crate::specs::Calls::heard_of))]
fn heard(sound: bool, room: usize, m: &[u8]) -> Result<Asked, Refusal>
    ensures { result ≡ heard_of sound room m.now }
{
    if !sound {
        return Err(Refusal::NotSound);
    }
    if room < REPLY_ROOM {
        return Err(Refusal::SmallBuffer);
    }
    Ok(plan::ask(wire::message::read(m)?))
}

// The reply that an answer is, into the buffer.
#[tactic(auto, unfolding(crate::specs::Calls::replied))]
fn reply_to(a: Result<Answer, Refusal>, reply: &mut [u8])
    ensures { reply.new ≡ replied a reply.old }
{
    match a {
        Ok(Answer::Reply(r)) => {
            let _ = reply::write(r, reply);
        }
        _ => {}
    }
}

// The step of the records that a plan asks for. (No `From`: one place asks for it.)
fn step_of(r: RecordChange) -> Step
    ensures { result ≡ step_of r }
{
    match r {
        RecordChange::Nothing => Step::Stay,
        RecordChange::Accept {
            path,
            tag,
            lun,
            kind,
            sequel,
        } => Step::Accept {
            path,
            tag,
            unit: lun,
            kind,
            sequel,
        },
        RecordChange::End(s) => Step::End(s),
        RecordChange::Complete(s) => Step::End(s),
        RecordChange::Restart { place, offset } => Step::Alter {
            place,
            by: Alteration::Restart(offset),
        },
    }
}

// A call that is refused: the table as it was.
fn refused(t: Table, n: Refusal) -> Outcome
    ensures { result ≡ refused t n }
{
    Outcome {
        table: t,
        answer: Err(n),
        ended: 0,
        to: 0,
        stops: 0,
    }
}

// A message received: the next table, the answer, what was ended, and the reply in the buffer. The plan is found first,
// then carried out on the one table: paths and units in place, then the records.
pub fn message(mut t: Table, m: &[u8], reply: &mut [u8]) -> Outcome
    ensures { MessageContract t m.now reply.old result reply.new }
{
    let a = match heard(is_sound(t), reply.len(), m) {
        Ok(a) => a,
        Err(n) => return refused(t, n),
    };
    let request = a.request;
    let Some(p) = t.path_of(a.path) else {
        return refused(t, Refusal::UnknownPath);
    };
    let lun = plan::unit_asked(request);
    let others = if plan::clears_set(request) {
        t.others_on(lun, p)
    } else {
        0
    };
    let lookup = if plan::goes_by_unit(request) {
        unit_alone(t.is_attached(lun), others)
    } else {
        look_up(t, p, plan::tag_asked(a.tag, request), lun, false)
    };
    let plan = plan::find_plan(lookup, t.next, p, a.tag, m, request);
    t.paths = plan::change_paths(t.paths, t.count, plan.change);
    t.units = plan::change_units(t.units, plan.change);
    let before = t.live;
    let mut stops: u8 = 0;
    // No step where no record changes: it would copy the table twice. Of what a message ends only what an order ends can
    // be running: its unit has to stop.
    match plan.records {
        RecordChange::Nothing => {}
        RecordChange::End(s) => {
            stops = t.running_among(s);
            t = t.step(Step::End(s));
        }
        _ => t = t.step(step_of(plan.records)),
    }
    reply_to(plan.answer, reply);
    Outcome {
        table: t,
        answer: plan.answer,
        ended: task::map::gone(before, t.live),
        to: reply_path(plan.answer, a.path),
        stops,
    }
}

// What may go next on the unit: under ACA only the ACA task.
fn may_go(aca: Option<u8>, unit: u8) -> Selection
    ensures { result ≡ may_go aca unit }
{
    if aca.is_some() {
        Selection::aca_waiting_on(unit)
    } else {
        Selection::waiting_on(unit)
    }
}

// The task that a start is about, by what was asked of the table: whether it passed the check, the unit is attached and
// busy, and the task that may go next there.
#[tactic(auto, unfolding(crate::specs::Steps::chosen_by))]
fn choose(checked: bool, attached: bool, busy: bool, next: Option<Pick>) -> Result<Pick, Refusal>
    ensures { result ≡ chosen_by checked attached busy next }
{
    if !checked {
        return Err(Refusal::NotSound);
    }
    if !attached {
        return Err(Refusal::NotAttached);
    }
    if busy {
        return Err(Refusal::UnitBusy);
    }
    next.ok_or(Refusal::NothingToStart)
}

// The unit is free: the task that goes next runs. The answer has its arrival number and the offset to start at.
#[tactic(auto, using(table::proofs::Stepping::holders_found), unfolding(crate::specs::Calls::start_of, crate::specs::Calls::start_choice, crate::specs::Calls::choice_on, crate::specs::Steps::chosen_by, table::specs::Steps::stepped))]
pub fn start(mut t: Table, unit: u8) -> Outcome
    ensures { StartContract t unit result }
{
    let running = t.holders(Selection::running_on(unit));
    let next = t.pick(may_go(t.unit_at(unit).aca, unit));
    let p = match choose(is_sound(t), t.is_attached(unit), running.is_some(), next) {
        Ok(p) => p,
        Err(n) => return refused(t, n),
    };
    t = t.step(Step::Alter {
        place: p.at,
        by: Alteration::Run,
    });
    Outcome {
        table: t,
        answer: Ok(Answer::Started {
            offset: p.task.position,
            arrival: p.task.arrival,
        }),
        ended: 0,
        to: 0,
        stops: 0,
    }
}

// Whether the device may finish with this status and sense key.
fn may_finish(status: StatusByte, sense: Sense) -> bool
    ensures { result ≡ may_finish status sense }
{
    sense.key <= 15
        && (status == StatusByte::GOOD
            || status == StatusByte::CHECK_CONDITION
            || status == StatusByte::CONDITION_MET
            || status == StatusByte::RESERVATION_CONFLICT)
}

// Sense goes with CHECK CONDITION alone.
fn sent_sense(status: StatusByte, sense: Sense) -> Sense
    ensures { result ≡ sent_sense status sense }
{
    if status == StatusByte::CHECK_CONDITION {
        sense
    } else {
        Sense::NONE
    }
}

// The task that a finish is about, by what was asked of the table: whether it passed the check, and the running task of
// the arrival number; for a reply buffer of n bytes.
#[tactic(auto, unfolding(crate::specs::Steps::judged_by))]
fn judge(
    checked: bool,
    n: usize,
    status: StatusByte,
    sense: Sense,
    running: Option<Pick>,
) -> Result<Pick, Refusal>
    ensures { result ≡ judged_by checked n status sense running }
{
    if !checked {
        return Err(Refusal::NotSound);
    }
    if n < REPLY_ROOM {
        return Err(Refusal::SmallBuffer);
    }
    if !may_finish(status, sense) {
        return Err(Refusal::BadStatus);
    }
    running.ok_or(Refusal::NotRunning)
}

// The device has finished the running task of an arrival number, after so many bytes: it ends, or with CONFIRM waits
// to be confirmed. (The drive hands in page 01's fields, one argument each.)
pub fn finish(
    mut t: Table,
    arrival: u64,
    status: u8,
    key: u8,
    code: u8,
    qualifier: u8,
    transferred: u64,
    reply: &mut [u8],
) -> Outcome
    ensures { FinishContract t arrival (status_byte status) (sense key code qualifier) transferred reply.old result reply.new }
{
    let status = StatusByte(status);
    let sense = Sense {
        key,
        code,
        qualifier,
    };
    let running = t.pick(Selection::running_as(arrival));
    let p = match judge(is_sound(t), reply.len(), status, sense, running) {
        Ok(p) => p,
        Err(n) => return refused(t, n),
    };
    let before = t.live;
    let to = t.path_at(p.task.path as usize).id;
    let answer = Ok(Answer::Reply(Reply::Status {
        tag: p.task.tag,
        status,
        sense: sent_sense(status, sense),
    }));
    let failed = status == StatusByte::CHECK_CONDITION;
    t.units = finish_units(t.units, before, p.at, p.task, failed);
    t = t.step(finish_step(before, p.at, p.task, transferred));
    reply_to(answer, reply);
    Outcome {
        table: t,
        answer,
        ended: task::map::gone(before, t.live),
        to,
        stops: 0,
    }
}

// Everything is reset, by the pass that ends tasks; arrival numbers go on.
pub fn total_reset(mut t: Table) -> Outcome
    ensures { TotalResetContract t result }
{
    if !is_sound(t) {
        return refused(t, Refusal::NotSound);
    }
    let before = t.live;
    let stops = t.running_among(Selection::ALL);
    t.paths = table::paths::give_reset_attention(t.paths, t.count, true);
    t.units = table::units::clear_aca(t.units, None);
    t = t.step(Step::End(Selection::ALL));
    Outcome {
        table: t,
        answer: Ok(Answer::Reset),
        ended: task::map::gone(before, t.live),
        to: 0,
        stops,
    }
}

// The first table, for a list of path ids, the mask of attached units and the first arrival number.
#[tactic(auto, unfolding(crate::specs::Calls::setup_of))]
pub fn setup(ids: &[u32], attached: u8, first: u64) -> Outcome
    ensures { SetupContract ids.now attached first result }
{
    let t = Table::new(ids, attached, first);
    let answer = if table::setup::bad_list(ids) {
        Err(Refusal::BadPaths)
    } else {
        Ok(Answer::Ready)
    };
    Outcome {
        table: t,
        answer,
        ended: 0,
        to: 0,
        stops: 0,
    }
}

// The command block that goes to the device with an accepted command: a part of the message, no copy. Any other
// answer hands over an empty part, whatever the refusal.
#[tactic(auto, unfolding(crate::specs::Calls::handed_over))]
pub fn command_block<E: Copy>(m: &[u8], a: Result<Answer, E>) -> &[u8]
    ensures { CommandBlockContract m.now a result.now }
{
    match a {
        Ok(Answer::Accepted(_)) => wire::block::command_block(m),
        _ => &[],
    }
}
