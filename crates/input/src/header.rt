// The header of a transcript: path count, ids, mask of attached units, first arrival number. It is read whole.
ghost use Rattle.std.specs.Prelude.{◌≡◌, []};
ghost use Rattle.input.specs.Reading.{ids_from, padded, header_of};

use crate::number::{byte_at, number_at};
use arrayvec::ArrayVec;

// The most ids that are kept. A setup takes eight: with nine it is refused.
const KEPT: usize = 9;

// What the header says, and the place after it: `count` ids are kept, nine at most. (An array with a count, since a
// header is Copy and a vector is not.)
#[derive(Clone, Copy)]
pub struct Header {
    pub first: u64,
    pub next: usize,
    pub count: usize,
    pub ids: [u32; KEPT],
    pub mask: u8,
}

// So many ids from a place on, each below 2^32: the first nine of them, and the place after the last.
#[tactic(auto, unfolding(crate::specs::Numbers::below, crate::specs::Numbers::given, crate::specs::Reading::ids_from))]
fn ids_from(s: &[u8], at: usize, count: u8) -> Option<(ArrayVec<u32, KEPT>, usize)>
    ensures { result ≡ ids_from count s.now at [] }
{
    let mut ids = ArrayVec::new();
    let mut next = at;
    'ids: for _ in 0..count {
        let (id, after) = number_at(s, next)?;
        let id = u32::try_from(id).ok()?;
        if !ids.is_full() {
            ids.push(id);
        }
        next = after;
    }
    Some((ids, next))
}

// The ids at the front of nine places, and 0 in those behind them.
fn padded(ids: &[u32]) -> [u32; KEPT]
    ensures { result ≡ padded ids.now }
{
    let mut places = [0; KEPT];
    let n = ids.len().min(KEPT);
    places[..n].copy_from_slice(&ids[..n]);
    places
}

// The header at the front of the input.
#[tactic(auto, unfolding(crate::specs::Numbers::given, crate::specs::Reading::header_of))]
pub fn read_header(s: &[u8]) -> Option<Header>
    ensures { result ≡ header_of s.now }
{
    let (count, a) = byte_at(s, 0)?;
    let (ids, b) = ids_from(s, a, count)?;
    let (mask, c) = byte_at(s, b)?;
    let (first, next) = number_at(s, c)?;
    Some(Header {
        first,
        next,
        count: ids.len(),
        ids: padded(ids.as_slice()),
        mask,
    })
}
