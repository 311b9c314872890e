// The map of what was seen, in front of the pairwise walk: each live record sets a bit for each thing that no other may
// share with it. Where none of a record's bits is set, no record below clashes with it; where one is, the walk decides.
// Memory is fixed, and ClearIsFree speaks of these bits: so an array of words, and no set of the library.
ghost use Rattle.std.specs.Prelude.{◌≡◌};
ghost use Rattle.sound.specs.Seen;
ghost use Rattle.sound.specs.Seen.{name_bit, number_bit, running_bit, aca_bit, is_seen, with_seen_if, with_bits_of};

use table::{PATHS, UNITS};
use task::Task;

// How many bits there are for names and for arrival numbers. Behind them stand those of the units, once for where a
// task runs and once for where an ACA task is.
const NAMES: usize = 512;

const NUMBERS: usize = 512;

const FIRST_NUMBER: usize = NAMES;

const FIRST_RUNNING: usize = FIRST_NUMBER + NUMBERS;

const FIRST_ACA: usize = FIRST_RUNNING + UNITS;

// The bits of a word, and the words of the map. A word is read and written as the map of live records is.
const WORD: usize = 64;

pub(crate) const WORDS: usize = (FIRST_ACA + UNITS + WORD - 1) / WORD;

// A name is a path and a tag. The paths share the bits: the tags of each begin 64 behind those of the one before.
fn name_bit(a: Task) -> usize
    ensures { result ≡ name_bit a }
{
    (a.path as usize * (NAMES / PATHS) + a.tag as usize) % NAMES
}

fn number_bit(a: Task) -> usize
    ensures { result ≡ number_bit a }
{
    FIRST_NUMBER + (a.arrival % NUMBERS as u64) as usize
}

fn running_bit(a: Task) -> usize
    ensures { result ≡ running_bit a }
{
    FIRST_RUNNING + a.unit as usize % UNITS
}

fn aca_bit(a: Task) -> usize
    ensures { result ≡ aca_bit a }
{
    FIRST_ACA + a.unit as usize % UNITS
}

// Whether bit k is set; there is none past the map's end.
fn is_seen(seen: &[u64], k: usize) -> bool
    ensures { result ≡ is_seen seen.now k }
{
    let w = k / WORD;
    w < seen.len() && task::map::is_live(seen[w], k % WORD)
}

// Bit k set, where it is asked for; past the map's end nothing changes.
fn set_bit_if(asked: bool, seen: &mut [u64], k: usize)
    ensures { seen.new ≡ with_seen_if asked seen.old k }
{
    let w = k / WORD;
    if asked && w < seen.len() {
        seen[w] = task::map::with_bit(seen[w], k % WORD);
    }
}

// Whether one of the task's bits is set.
#[tactic(auto, unfolding(crate::specs::Seen::may_clash))]
pub(crate) fn may_clash(seen: &[u64], a: Task) -> bool
    ensures { result ≡ Seen.may_clash seen.now a }
{
    is_seen(seen, name_bit(a))
        || is_seen(seen, number_bit(a))
        || (task::is_running(a.phase) && is_seen(seen, running_bit(a)))
        || (task::is_aca(a.kind) && is_seen(seen, aca_bit(a)))
}

// The task's bits set.
#[tactic(auto, unfolding(crate::specs::Seen::with_bits_of))]
pub(crate) fn set_bits(seen: &mut [u64], a: Task)
    ensures { seen.new ≡ with_bits_of seen.old a }
{
    set_bit_if(true, seen, name_bit(a));
    set_bit_if(true, seen, number_bit(a));
    set_bit_if(task::is_running(a.phase), seen, running_bit(a));
    set_bit_if(task::is_aca(a.kind), seen, aca_bit(a));
}
