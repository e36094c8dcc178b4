ghost use Rattle.std.specs.Prelude.{◌≡◌};
ghost use Rattle.blocks.specs.Blocks.{found, earlier};

use crate::block::Block;

// The block of a page.
pub fn block_of(blocks: &[Block], page: u32) -> Option<Block>
    ensures { result ≡ found page blocks.now }
{
    blocks.iter().find(|block| block.page == page).copied()
}

// HIST1 of a page, or 0 where it has no block.
pub fn hist1_of(blocks: &[Block], page: u32) -> u32
    ensures { result ≡ earlier page blocks.now }
{
    block_of(blocks, page).map_or(0, |block| block.hist1)
}
