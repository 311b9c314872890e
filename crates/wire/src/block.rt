// The command block of a command: a part of the message, and what the rules ask of it.
ghost use Rattle.std.specs.Prelude.{◌≡◌};
ghost use Rattle.wire.specs.Block.{block_length, cut_short, no_block, linked, block_of};

use crate::fields::byte_at;
use crate::tables::BLOCK_LENGTHS;

// The block's length, and 0 where its group has none: such a block adds nothing to the length that rule 2 asks for.
fn length(m: &[u8]) -> usize
    ensures { result ≡ block_length m.now }
{
    let first = byte_at(m, 16);
    BLOCK_LENGTHS[(first / 32) as usize]
}

// Rule 2: the message ends before its command block does.
#[tactic(auto, unfolding(crate::specs::Block::cut_short))]
pub fn cut_short(m: &[u8]) -> bool
    ensures { result ≡ cut_short m.now }
{
    m.len() < 17 || m.len() < 16 + length(m)
}

// Rule 9: the block's group has no length.
#[tactic(auto, unfolding(crate::specs::Block::no_block))]
pub fn no_length(m: &[u8]) -> bool
    ensures { result ≡ no_block m.now }
{
    length(m) == 0
}

// Rule 10: LINK or FLAG in the block's last byte.
#[tactic(auto, unfolding(crate::specs::Block::linked, crate::specs::Block::no_block))]
pub fn is_linked(m: &[u8]) -> bool
    ensures { result ≡ linked m.now }
{
    let n = length(m);
    n != 0 && byte_at(m, 15 + n) % 4 != 0
}

// The command block as a part of the message, no copy; an empty part where the message does not hold it.
#[tactic(auto, unfolding(crate::specs::Block::block_of, crate::specs::Block::cut_short))]
pub fn command_block(m: &[u8]) -> &[u8]
    ensures { result.now ≡ block_of m.now }
{
    if cut_short(m) {
        return &[];
    }
    &m[16..16 + length(m)]
}
