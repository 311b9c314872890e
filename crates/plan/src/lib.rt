// The plan: what a message asks, the answer to it, and what that does to the table. No table travels here.
#![tactic(auto)]

ghost use Rattle.std.specs.Prelude.{◌≡◌};
ghost use Rattle.plan.specs.Plans.{asking, asked_of, tag_asked, unit_asked, clears_set, goes_by_unit, sequel_of, planned, refusing, report_change, ruled, order_plan, awaited, confirm_plan, plan_of, sender_after, paths_after, units_after};

use reply::Reply;
use rules::change::{Change, QueueChange, SenderChange};
use rules::command::Ruling;
use rules::facts::{Facts, Lookup};
use rules::manage::Order;
use table::{PATHS, Path, UNITS, Unit};
use task::scan::Pick;
use task::select::Selection;
use task::{Kind, Phase, Sequel};
use wire::codes::{Refusal, ReturnCode};
use wire::message::{Flags, Message};

// What is asked for: a command's queueing, an order, or what is to become of a task that waits to be confirmed.
#[derive(Clone, Copy)]
pub enum Request {
    Command { lun: u8, flags: Flags },
    Manage(Order),
    Confirm { offset: u32, complete: bool },
}

// What is asked for, who asks for it and under which tag.
#[derive(Clone, Copy)]
pub struct Asked {
    pub path: u32,
    pub tag: u16,
    pub request: Request,
}

// What happens to the records.
#[derive(Clone, Copy)]
pub enum RecordChange {
    // Every record stays.
    Nothing,
    // A command is accepted, waiting: a new task of the path at a place takes the lowest-numbered free record.
    Accept {
        path: u8,
        tag: u16,
        lun: u8,
        kind: Kind,
        sequel: Sequel,
    },
    // An order ends all tasks of a selection.
    End(Selection),
    // A confirmation ends the task of a selection, which waits to be confirmed.
    Complete(Selection),
    // The task in a record waits again, to start at an offset.
    Restart {
        place: usize,
        offset: u32,
    },
}

// What a call answers that is not refused. Reply is the one that leaves bytes in the reply buffer.
#[derive(Clone, Copy)]
pub enum Answer {
    Ready,
    Accepted(u64),
    Reply(Reply),
    Started { offset: u64, arrival: u64 },
    Confirmed(u64),
    Restarted(u64),
    Reset,
}

// The answer, or why the message is refused, and what that does to the table. A refusal does nothing.
#[derive(Clone, Copy)]
pub struct Plan {
    pub answer: Result<Answer, Refusal>,
    pub change: Change,
    pub records: RecordChange,
}

fn order(path: u32, tag: u16, o: Order) -> Asked
    ensures { result ≡ asking path tag (Request.Manage o) }
{
    let request = Request::Manage(o);
    Asked { path, tag, request }
}

// What a message asks.
pub fn ask(g: Message) -> Asked
    ensures { result ≡ asked_of g }
{
    match g {
        Message::Command {
            tag,
            path,
            lun,
            flags,
        } => Asked {
            path,
            tag,
            request: Request::Command { lun, flags },
        },
        Message::ConfirmStatus {
            tag,
            path,
            new_path: _,
            offset,
            complete,
        } => Asked {
            path,
            tag,
            request: Request::Confirm { offset, complete },
        },
        Message::AbortTask { tag, path, tag2 } => order(path, tag, Order::AbortTask(tag2)),
        Message::AbortTaskSet { tag, path, lun } => order(path, tag, Order::AbortTaskSet(lun)),
        Message::ClearTaskSet { tag, path, lun } => order(path, tag, Order::ClearTaskSet(lun)),
        Message::TargetReset { tag, path } => order(path, tag, Order::TargetReset),
        Message::ClearAca { tag, path, lun } => order(path, tag, Order::ClearAca(lun)),
        Message::UnitReset { tag, path, lun } => order(path, tag, Order::UnitReset(lun)),
    }
}

// The tag and the unit that are asked about: the message's own, or those that an order names. A confirmation names no
// unit, and nothing that is looked up for 0 is looked at then: so no Option.
pub fn tag_asked(tag: u16, w: Request) -> u16
    ensures { result ≡ tag_asked tag w }
{
    match w {
        Request::Command { lun: _, flags: _ } => tag,
        Request::Manage(o) => rules::manage::tag_of(o),
        Request::Confirm {
            offset: _,
            complete: _,
        } => tag,
    }
}

pub fn unit_asked(w: Request) -> u8
    ensures { result ≡ unit_asked w }
{
    match w {
        Request::Command { lun, flags: _ } => lun,
        Request::Manage(o) => rules::manage::unit_of(o),
        Request::Confirm {
            offset: _,
            complete: _,
        } => 0,
    }
}

// Whether CLEAR TASK SET is asked for: the only one that asks who loses a task.
pub fn clears_set(w: Request) -> bool
    ensures { result ≡ clears_set w }
{
    match w {
        Request::Command { lun: _, flags: _ } => false,
        Request::Manage(o) => rules::manage::clears_set(o),
        Request::Confirm {
            offset: _,
            complete: _,
        } => false,
    }
}

// Whether what is asked for goes by its unit alone, so that no task of the sender's is looked for.
pub fn goes_by_unit(w: Request) -> bool
    ensures { result ≡ goes_by_unit w }
{
    match w {
        Request::Command { lun: _, flags: _ } => false,
        Request::Manage(o) => rules::manage::goes_by_unit(o),
        Request::Confirm {
            offset: _,
            complete: _,
        } => false,
    }
}

// What follows the finish of a command, by its CONFIRM bit. (No `From<bool>`: it would not say which bit.)
fn sequel_of(confirm: bool) -> Sequel
    ensures { result ≡ sequel_of confirm }
{
    if confirm {
        return Sequel::Confirm;
    }
    Sequel::End
}

// An answer that leaves the table as it is.
fn tell(answer: Result<Answer, Refusal>) -> Plan
    ensures { result ≡ planned answer Change.Nothing RecordChange.Nothing }
{
    Plan {
        answer,
        change: Change::Nothing,
        records: RecordChange::Nothing,
    }
}

// A refusal, which leaves the table as it is.
pub fn refuse(n: Refusal) -> Plan
    ensures { result ≡ refusing n }
{
    tell(Err(n))
}

// What a STATUS to a command of the path at p does: to its sender, and to the queue of its unit.
fn report_change(p: u8, lun: u8, sender: SenderChange, queue: QueueChange) -> Change
    ensures { result ≡ report_change p lun sender queue }
{
    match queue {
        QueueChange::Leaves => Change::OfSender(p, sender),
        QueueChange::Holds => Change::Holding {
            path: p,
            sender,
            unit: lun,
        },
    }
}

// The plan that a ruling on a command of the path at p comes to, under the next arrival number.
fn rule(next: u64, p: u8, tag: u16, lun: u8, flags: Flags, r: Ruling) -> Plan
    ensures { result ≡ ruled next p tag lun flags r }
{
    match r {
        Ruling::Refuse(n) => refuse(n),
        Ruling::Respond(code, sender) => Plan {
            answer: Ok(Answer::Reply(Reply::Response { tag, code })),
            change: Change::OfSender(p, sender),
            records: RecordChange::Nothing,
        },
        Ruling::Report(status, sense, sender, queue) => Plan {
            answer: Ok(Answer::Reply(Reply::Status { tag, status, sense })),
            change: report_change(p, lun, sender, queue),
            records: RecordChange::Nothing,
        },
        Ruling::Invalid(sender) => Plan {
            answer: Ok(Answer::Reply(Reply::Invalid { tag })),
            change: Change::OfSender(p, sender),
            records: RecordChange::Nothing,
        },
        Ruling::Accept => {
            Plan {
                answer: Ok(Answer::Accepted(next)),
                change: Change::OfSender(p, SenderChange::ClearMark),
                records: RecordChange::Accept {
                    path: p,
                    tag,
                    lun,
                    kind: flags.queue,
                    sequel: sequel_of(flags.confirm),
                },
            }
        }
    }
}

// The plan for an order of the path at p: it changes the table only where it is answered 00h.
#[tactic(auto, unfolding(crate::specs::Plans::order_plan))]
fn plan_order(f: Facts, others: u8, p: u8, tag: u16, m: &[u8], o: Order) -> Plan
    ensures { result ≡ order_plan f others p tag m.now o }
{
    let code = rules::manage::order_code(f, m, o);
    let answer = Ok(Answer::Reply(Reply::Response { tag, code }));
    if code == ReturnCode::DONE {
        return Plan {
            answer,
            change: rules::manage::order_change(others, o),
            records: RecordChange::End(rules::manage::ends(p, o)),
        };
    }
    tell(answer)
}

// The task that was picked, where it waits to be confirmed.
fn awaited(own: Option<Pick>) -> Option<Pick>
    ensures { result ≡ awaited own }
{
    own.filter(|p| p.task.phase == Phase::Unconfirmed)
}

// The plan for CONFIRM STATUS of the path at p, whose task with the tag is its own: it is ended, or it waits again
// where the offset lies within the bytes transferred.
#[tactic(auto, unfolding(crate::specs::Plans::confirm_plan))]
fn plan_confirm(own: Option<Pick>, p: u8, tag: u16, m: &[u8], offset: u32, complete: bool) -> Plan
    ensures { result ≡ confirm_plan own p tag m.now offset complete }
{
    let code = ReturnCode::INVALID_FIELD;
    if wire::message::reserved_set(m) {
        return tell(Ok(Answer::Reply(Reply::Response { tag, code })));
    }
    let Some(own) = awaited(own) else {
        return refuse(Refusal::NothingToConfirm);
    };
    let task = own.task;
    let arrival = task.arrival;
    if complete {
        return Plan {
            answer: Ok(Answer::Confirmed(arrival)),
            change: Change::Nothing,
            records: RecordChange::Complete(Selection::numbered_as(arrival, p, tag)),
        };
    }
    if u64::from(offset) > task.position {
        return tell(Ok(Answer::Reply(Reply::Response { tag, code })));
    }
    Plan {
        answer: Ok(Answer::Restarted(arrival)),
        change: Change::Nothing,
        records: RecordChange::Restart {
            place: own.at,
            offset,
        },
    }
}

// The plan for what the path at p asks with a tag, from what was looked up in the table and the next arrival number. (A
// struct of p, tag and m would be made in one place and taken apart in three: no plainer.)
pub fn find_plan(s: Lookup, next: u64, p: u8, tag: u16, m: &[u8], w: Request) -> Plan
    ensures { result ≡ plan_of s next p tag m.now w }
{
    match w {
        Request::Command { lun, flags } => {
            let ruling = rules::command::decide(s.facts, flags, m).ruling;
            rule(next, p, tag, lun, flags, ruling)
        }
        Request::Manage(o) => plan_order(s.facts, s.others, p, tag, m, o),
        Request::Confirm { offset, complete } => plan_confirm(s.own, p, tag, m, offset, complete),
    }
}

// The sender's mark and attention after an answer to its command.
fn change_sender(paths: [Path; PATHS], p: u8, sender: SenderChange) -> [Path; PATHS]
    ensures { result ≡ sender_after paths p sender }
{
    let at = p as usize;
    match sender {
        SenderChange::Stays => paths,
        SenderChange::SetMark => table::paths::mark(paths, at, true),
        SenderChange::ClearMark => table::paths::mark(paths, at, false),
        SenderChange::ClearMarkAndAttention => table::paths::drop_attention(
            table::paths::mark(paths, at, false),
            at,
        ),
    }
}

// The paths after a change; the first `count` are listed.
pub fn change_paths(paths: [Path; PATHS], count: u8, c: Change) -> [Path; PATHS]
    ensures { result ≡ paths_after paths count c }
{
    match c {
        Change::Nothing => paths,
        Change::OfSender(p, sender) => change_sender(paths, p, sender),
        Change::Holding {
            path,
            sender,
            unit: _,
        } => change_sender(paths, path, sender),
        Change::ClearedAttention(others) => table::paths::give_cleared_attention(paths, others),
        Change::AcaGoes(_) => paths,
        Change::Resets(_) => table::paths::give_reset_attention(paths, count, false),
    }
}

// The units after a change.
pub fn change_units(units: [Unit; UNITS], c: Change) -> [Unit; UNITS]
    ensures { result ≡ units_after units c }
{
    match c {
        Change::Nothing => units,
        Change::OfSender(_, _) => units,
        Change::Holding {
            path,
            sender: _,
            unit,
        } => table::units::claim(units, unit, path),
        Change::ClearedAttention(_) => units,
        Change::AcaGoes(unit) => table::units::clear_aca(units, Some(unit)),
        Change::Resets(place) => table::units::clear_aca(units, place),
    }
}
