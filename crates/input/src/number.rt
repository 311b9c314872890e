// Numbers in groups of seven bits: the low group first, the top bit set when another follows.
ghost use Rattle.std.specs.Prelude.{◌≡◌};
ghost use Rattle.input.specs.Numbers.{number_in, number_at, byte_at};

// The most groups that a number has.
const GROUPS: usize = 10;

// The number at a place, of at most `left` groups, and the place after it. Shortest form only, below 2^64.
// It calls itself: a loop would keep a shift and test the last group apart, and is no plainer.
#[tactic(auto, unfolding(crate::specs::Numbers::number_in, crate::specs::Numbers::with_group), using(crate::proofs::Numbers::one_less))]
fn groups(s: &[u8], at: usize, left: usize) -> Option<(u64, usize)>
    ensures { result ≡ number_in left s.now at }
{
    if left == 0 {
        return None;
    }
    let x = *s.get(at)?;
    if x < 128 {
        return Some((u64::from(x), at + 1));
    }
    let (high, next) = groups(s, at + 1, left - 1)?;
    if high == 0 {
        return None;
    }
    if high >= 0x0200_0000_0000_0000 {
        return None;
    }
    Some((u64::from(x - 128) + high * 128, next))
}

// The number at a place. (`event_at`, which is public, takes bytes and place apart, so they are no struct here either.)
pub(crate) fn number_at(s: &[u8], at: usize) -> Option<(u64, usize)>
    ensures { result ≡ number_at s.now at }
{
    groups(s, at, GROUPS)
}

// A number that fits a byte.
#[tactic(auto, unfolding(crate::specs::Numbers::below))]
pub(crate) fn byte_at(s: &[u8], at: usize) -> Option<(u8, usize)>
    ensures { result ≡ byte_at s.now at }
{
    let (v, next) = number_at(s, at)?;
    Some((u8::try_from(v).ok()?, next))
}
