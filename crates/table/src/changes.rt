// Tasks: the scan that the table lends its records to, who has a task and where one runs; what is accepted, started, restarted,
// finished, ended and reset. These are a step of steps.rt each, finish with a change of the units; reset is none.
ghost use Rattle.std.specs.Prelude.{◌≡◌, ◌&&◌, not, ltb, eqb};
ghost use Rattle.table.specs.Tables.{task_at, pick_of, has_room, accepted, ended_by, started, restarted, finished, reset_of, others_on};
ghost use Rattle.task.specs.Tasks.{is_running};
ghost use Rattle.task.specs.Selections.{picks_live};
ghost use Rattle.table.specs.Steps.{holders_of, running_among};

use crate::steps::{Alteration, Step};
use crate::{LAST_ARRIVAL, MOST_PATHS, Table, UNITS};
use task::scan::Pick;
use task::select::Selection;
use task::{Kind, RECORDS, Sequel, Task};

impl Table {
    // Of the live tasks that the selection picks, the one that goes next. The records are lent to the scan.
    #[tactic(auto, unfolding(crate::specs::Tables::pick_of))]
    pub fn pick(self, s: Selection) -> Option<Pick>
        ensures { result ≡ pick_of self s }
    {
        task::scan::next_of(&self.tasks, self.live, s)
    }

    // The record at a place, and a wiped one past the end. With `at_or`, as in `path_at`, the table is copied once more on
    // the stack, which has a bound.
    pub fn task_at(self, i: usize) -> Task
        ensures { result ≡ task_at self i }
    {
        if i < RECORDS {
            self.tasks[i]
        } else {
            task::no_task()
        }
    }

    // Whether a record is free and an arrival number is left.
    #[tactic(auto, unfolding(crate::specs::Tables::has_room))]
    pub fn has_room(self) -> bool
        ensures { result ≡ has_room self }
    {
        task::map::lowest_free(self.live) < RECORDS && self.next <= LAST_ARRIVAL
    }

    // A new waiting task in the lowest free record, under the next arrival number; with no room nothing changes. (The five
    // parts are those of `Tables.accepted`, which the laws speak of: so no struct.)
    #[tactic(auto, unfolding(crate::specs::Steps::stepped))]
    pub fn accept(self, path: u8, tag: u16, unit: u8, kind: Kind, sequel: Sequel) -> Table
        ensures { result ≡ accepted self path tag unit kind sequel }
    {
        self.step(Step::Accept {
            path,
            tag,
            unit,
            kind,
            sequel,
        })
    }

    // Every live task that the selection picks ends: its record is wiped and its place free.
    #[tactic(auto, unfolding(crate::specs::Steps::stepped))]
    pub fn end(self, s: Selection) -> Table
        ensures { result ≡ ended_by self s }
    {
        self.step(Step::End(s))
    }

    // The live task in the record runs.
    #[tactic(auto, unfolding(crate::specs::Steps::stepped))]
    pub fn start(self, i: usize) -> Table
        ensures { result ≡ started self i }
    {
        self.step(Step::Alter {
            place: i,
            by: Alteration::Run,
        })
    }

    // The live task in the record waits again, to start at an offset.
    #[tactic(auto, unfolding(crate::specs::Steps::stepped))]
    pub fn restart(self, i: usize, offset: u32) -> Table
        ensures { result ≡ restarted self i offset }
    {
        self.step(Step::Alter {
            place: i,
            by: Alteration::Restart(offset),
        })
    }

    // The device has finished the task that runs in the record: with CONFIRM it waits to be confirmed, else it ends.
    // Where it failed, its unit gets ACA owned by its path, unless it has one. A dead record, or one whose task does
    // not run, changes nothing.
    #[tactic(auto, using(crate::proofs::Stepping::finishes))]
    pub fn finish(mut self, i: usize, failed: bool, transferred: u64) -> Table
        ensures { result ≡ finished self i failed transferred }
    {
        let a = self.task_at(i);
        self.units = crate::steps::finish_units(self.units, self.live, i, a, failed);
        self.step(crate::steps::finish_step(self.live, i, a, transferred))
    }

    // Total reset: no task, no mark, no ACA, reset attention on every listed path; arrival numbers go on.
    #[tactic(auto, unfolding(crate::specs::Tables::reset_of))]
    pub fn reset(mut self) -> Table
        ensures { result ≡ reset_of self }
    {
        self.live = 0;
        self.paths = crate::paths::give_reset_attention(self.paths, self.count, true);
        self.units = [crate::units::no_unit(); UNITS];
        self.tasks = [task::no_task(); RECORDS];
        self
    }

    // Who has a live task that the selection picks: the map of their places in the path list, and none where nobody
    // has one. One pass over the records.
    #[tactic(auto, using(crate::proofs::Stepping::held_loop))]
    pub fn holders(self, s: Selection) -> Option<u64>
        ensures { result ≡ holders_of self s }
    {
        let mut held = None;
        for (i, a) in self.tasks.iter().enumerate() {
            if task::select::picked_live(self.live, s, i, *a) {
                held = Some(task::map::with_bit(held.unwrap_or(0), a.path as usize));
            }
        }
        held
    }

    // The map of the units on which a live task that the selection picks runs: one pass over the records. (One function
    // for this and `holders`, with a test and a number as closures, is no plainer than two loops. The map has 8 bits at
    // most, so no `try_from`, here and in `others_on`: no error could come of it.) It stays a function by itself: put into
    // a call, it brings a second table into the call's frame, and the stack has a bound.
    #[inline(never)]
    #[tactic(auto, using(crate::proofs::Stepping::running_all, task::proofs::Gathering::gather_start))]
    pub fn running_among(self, s: Selection) -> u8
        ensures { result ≡ running_among self s }
    {
        let mut units: u64 = 0;
        for (i, a) in self.tasks.iter().enumerate() {
            if runs_picked(self.live, s, i, *a) {
                units = task::map::with_bit(units, a.unit as usize);
            }
        }
        (units % 256) as u8
    }

    // The map of the listed paths, other than the sender's, that have a live task on the unit.
    #[tactic(auto, using(crate::proofs::Stepping::others_all, task::proofs::Gathering::gather_start))]
    pub fn others_on(self, unit: u8, sender: u8) -> u8
        ensures { result ≡ others_on self unit sender }
    {
        let held = self.holders(Selection::on_unit(unit)).unwrap_or(0);
        let mut others: u64 = 0;
        for p in 0..MOST_PATHS {
            let has = task::map::is_live(held, p as usize);
            if is_other_on(self.count, sender, p, has) {
                others = task::map::with_bit(others, p as usize);
            }
        }
        (others % 256) as u8
    }
}

// Whether record i is live, and the task a in it runs and is picked. Few tasks run, so that is asked first.
fn runs_picked(live: u64, s: Selection, i: usize, a: Task) -> bool
    ensures { result ≡ (is_running a.phase && picks_live live s i a) }
{
    task::is_running(a.phase) && task::select::picked_live(live, s, i, a)
}

// Whether the path at p loses a task: it is listed, not the sender's, and has one.
fn is_other_on(count: u8, sender: u8, p: u8, has: bool) -> bool
    ensures { result ≡ (ltb p count && (not (eqb p sender) && has)) }
{
    p < count && p != sender && has
}
