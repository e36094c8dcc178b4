ghost use Rattle.std.specs.Prelude.{◌≡◌, ◌/◌, ◌≤◌, true, length};
ghost use Rattle.policy.specs.Sets.{distinct};
ghost use Rattle.blocks.specs.Blocks.{pages};

use blocks::Block;
use policy::FrameCount;
use recency::Table;

// The policy LRU-2. It has the blocks of the resident pages, one to a page. Blocks of pages that left are
// retained, from the one that left last. Each list stands in a table of the policy's own.
#[derive(Drop)]
pub struct LruTwo {
    pub(crate) frames: FrameCount,
    pub(crate) crp: u16,
    pub(crate) blocks: Table<Block, 64>,
    pub(crate) retained: Table<Block, 32>,
    ghost few: { length blocks ≤ frames.value },
    ghost short: { length retained ≤ frames.value / 2 },
    ghost once: { distinct (pages blocks) ≡ true },
}
