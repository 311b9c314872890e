// One step of the records: a change that a call makes to them, carried out where they stand, in one pass over one table.
ghost use Rattle.std.specs.Prelude.{◌≡◌};
ghost use Rattle.task.specs.Tasks.{accepted_as};
ghost use Rattle.table.specs.Steps.{altered_by, stepped, runs_in, finish_step, finish_units};

use crate::{LAST_ARRIVAL, Table, UNITS, Unit};
use task::select::Selection;
use task::{Kind, Phase, RECORDS, Sequel, Task};

// How a live task changes: it runs; it waits again, to start at an offset; it waits to be confirmed, with the bytes
// transferred.
#[derive(Clone, Copy)]
pub enum Alteration {
    Run,
    Restart(u32),
    Await(u64),
}

// What happens to the records. Handed to one function, which the compiler keeps apart from the calls, so that the stack
// of each stays within its bound: so an enum, and no closure.
#[derive(Clone, Copy)]
pub enum Step {
    // Every record stays.
    Stay,
    // A new task, waiting, takes the lowest-numbered free record, under the next arrival number; with no room nothing
    // changes.
    Accept {
        path: u8,
        tag: u16,
        unit: u8,
        kind: Kind,
        sequel: Sequel,
    },
    // The live task in a record changes.
    Alter {
        place: usize,
        by: Alteration,
    },
    // Every live task that the selection picks ends: its record is wiped and its place free.
    End(Selection),
}

// A new task, waiting, under an arrival number.
fn newcomer(arrival: u64, path: u8, tag: u16, unit: u8, kind: Kind, sequel: Sequel) -> Task
    ensures { result ≡ accepted_as arrival path tag unit kind sequel }
{
    Task {
        arrival,
        position: 0,
        tag,
        path,
        unit,
        kind,
        phase: Phase::Waiting,
        sequel,
    }
}

// The task, changed.
fn altered(a: Task, by: Alteration) -> Task
    ensures { result ≡ altered_by by a }
{
    match by {
        Alteration::Run => Task {
            phase: Phase::Running,
            ..a
        },
        Alteration::Restart(offset) => Task {
            phase: Phase::Waiting,
            position: u64::from(offset),
            ..a
        },
        Alteration::Await(transferred) => Task {
            phase: Phase::Unconfirmed,
            position: transferred,
            ..a
        },
    }
}

impl Table {
    // The step, where the records stand. All steps are one function: so the compiler keeps it apart from the calls, and
    // a call has one table of its own on the stack, and this one below it.
    #[tactic(auto, using(crate::proofs::Changing::end_loop), unfolding(crate::specs::Steps::stepped, crate::specs::Tables::accepted, crate::specs::Tables::has_room, crate::specs::Tables::altered_at))]
    pub fn step(mut self, s: Step) -> Table
        ensures { result ≡ stepped self s }
    {
        match s {
            Step::Stay => return self,
            Step::Accept {
                path,
                tag,
                unit,
                kind,
                sequel,
            } => {
                let i = task::map::lowest_free(self.live);
                let next = self.next;
                if i >= RECORDS {
                    return self;
                }
                if next > LAST_ARRIVAL {
                    return self;
                }
                let a = newcomer(next, path, tag, unit, kind, sequel);
                self.tasks[i] = a;
                self.live = task::map::with_bit(self.live, i);
                self.next = next + 1;
                return self;
            }
            Step::Alter { place, by } => {
                if place >= RECORDS {
                    return self;
                }
                if !task::map::is_live(self.live, place) {
                    return self;
                }
                let a = self.tasks[place];
                let b = altered(a, by);
                self.tasks[place] = b;
                return self;
            }
            Step::End(which) => {
                for i in 0..RECORDS {
                    let a = self.tasks[i];
                    if task::select::picked_live(self.live, which, i, a) {
                        let none = task::no_task();
                        self.tasks[i] = none;
                        self.live = task::map::without_bit(self.live, i);
                    }
                }
                return self;
            }
        }
    }
}

// Whether record i is live and its task a runs. (The three are no struct: `finish` would make one to take it apart here.)
fn runs_in(live: u64, i: usize, a: Task) -> bool
    ensures { result ≡ runs_in live i a }
{
    i < RECORDS && task::map::is_live(live, i) && task::is_running(a.phase)
}

// What a finish makes of the task a in record i, after so many bytes: with CONFIRM it waits to be confirmed, else it
// ends. Where it does not run there, nothing changes.
#[tactic(auto, unfolding(crate::specs::Steps::finish_step))]
pub fn finish_step(live: u64, i: usize, a: Task, transferred: u64) -> Step
    ensures { result ≡ finish_step live i a transferred }
{
    if !runs_in(live, i, a) {
        return Step::Stay;
    }
    let sequel = a.sequel;
    if task::has_confirm(sequel) {
        return Step::Alter {
            place: i,
            by: Alteration::Await(transferred),
        };
    }
    Step::End(Selection::running_as(a.arrival))
}

// And of the units: where it failed, its unit gets ACA owned by its path, unless it has one.
#[tactic(auto, unfolding(crate::specs::Steps::finish_units))]
pub fn finish_units(
    units: [Unit; UNITS],
    live: u64,
    i: usize,
    a: Task,
    failed: bool,
) -> [Unit; UNITS]
    ensures { result ≡ finish_units units live i a failed }
{
    if !runs_in(live, i, a) {
        return units;
    }
    if !failed {
        return units;
    }
    crate::units::claim(units, a.unit, a.path)
}
