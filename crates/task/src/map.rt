// The map of live records: 64 bits, bit i for record i.
ghost use Rattle.std.specs.Prelude.{◌≡◌, ◌<◌, ◌^◌};
ghost use Rattle.task.specs.Map.{is_live, lowest_free, live_count, with_bit, without_bit, gone};

use crate::RECORDS;

// The lowest place whose bit is 0, or 64. No Option: it is the count of trailing zeros that FreeIsTrailing promises.
#[tactic(auto, using(crate::proofs::Bits::trailing_first), unfolding(crate::specs::Map::lowest_free))]
pub fn lowest_free(live: u64) -> usize
    ensures { result ≡ lowest_free live }
{
    u64::trailing_zeros(!live) as usize
}

// How many records are live.
#[tactic(auto, using(crate::proofs::Bits::ones_count), unfolding(crate::specs::Map::live_count))]
pub fn live_count(live: u64) -> u32
    ensures { result ≡ live_count live }
{
    u64::count_ones(live)
}

// The number whose bit i alone is 1.
fn bit(i: usize) -> u64
    requires { i < 64 }
    ensures { result ≡ 2 ^ i }
{
    1 << i
}

// Whether bit i is 1; there is none past 63.
pub fn is_live(live: u64, i: usize) -> bool
    ensures { result ≡ is_live live i }
{
    if i >= RECORDS {
        return false;
    }
    (live >> i) % 2 == 1
}

// The map with bit i set; past 63 the map as it is.
#[tactic(auto, unfolding(crate::specs::Map::with_bit))]
pub fn with_bit(live: u64, i: usize) -> u64
    ensures { result ≡ with_bit live i }
{
    if i >= RECORDS {
        return live;
    }
    live | bit(i)
}

// The map with bit i cleared; past 63 the map as it is.
#[tactic(auto, unfolding(crate::specs::Map::without_bit))]
pub fn without_bit(live: u64, i: usize) -> u64
    ensures { result ≡ without_bit live i }
{
    if i >= RECORDS {
        return live;
    }
    live & !bit(i)
}

// The places that are live before and not after.
pub fn gone(before: u64, after: u64) -> u64
    ensures { result ≡ gone before after }
{
    before & !after
}
