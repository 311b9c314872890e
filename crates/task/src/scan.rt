// The scan of lent records: of the live tasks that a selection picks, the one that goes next.
ghost use Rattle.std.specs.Prelude.{◌≡◌};
ghost use Rattle.task.specs.Tasks.{is_head};
ghost use Rattle.task.specs.Scan.{beats, considered, scan};

use crate::select::Selection;
use crate::{Kind, Task};

// What the scan picked: the task, and the record that it stands in. Where there is none the scan answers None.
#[derive(Clone, Copy)]
pub struct Pick {
    pub task: Task,
    pub at: usize,
}

fn is_head(k: Kind) -> bool
    ensures { result ≡ is_head k }
{
    k == Kind::Head
}

// Whether a goes before b: a HEAD OF QUEUE task before any other, the latest of those first; of the others the
// earliest.
fn goes_before(a: Task, b: Task) -> bool
    ensures { result ≡ beats a b }
{
    if is_head(a.kind) {
        return !is_head(b.kind) || b.arrival < a.arrival;
    }
    !is_head(b.kind) && a.arrival < b.arrival
}

// The best so far, after record i. It is written where the record wins, and only read at the others.
#[tactic(auto, unfolding(crate::specs::Scan::considered))]
fn consider(best: &mut Option<Pick>, a: Task, i: usize, live: u64, s: Selection)
    ensures { best.new ≡ considered live s best.old i a }
{
    if crate::select::picked_live(live, s, i, a) && best.is_none_or(|b| goes_before(a, b.task)) {
        *best = Some(Pick { task: a, at: i });
    }
}

// The thin scan over the lent records. (The map and the selection go to `picked_live` as they come: no struct.)
pub fn next_of(tasks: &[Task], live: u64, s: Selection) -> Option<Pick>
    ensures { result ≡ scan live s tasks.now }
{
    let mut best = None;
    for (i, a) in tasks.iter().enumerate() {
        consider(&mut best, *a, i, live, s);
    }
    best
}
