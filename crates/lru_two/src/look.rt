ghost use Rattle.std.specs.Prelude.{◌≡◌};
ghost use Rattle.lru_two.specs.Model.{empty};
ghost use Rattle.lru_two.specs.Of.{model};

use crate::lru_two::LruTwo;
use blocks::Block;
use policy::FrameCount;
use recency::Table;

// Ways to make the policy and to look at what it remembers.
impl LruTwo {
    // An empty policy with a frame count and a correlated reference period.
    pub fn new(frames: FrameCount, crp: u16) -> LruTwo
        ensures { model result ≡ empty frames.value crp }
    {
        let none = Block {
            page: 0,
            hist1: 0,
            hist2: 0,
            last: 0,
        };
        LruTwo {
            frames,
            crp,
            blocks: Table::new(none),
            retained: Table::new(none),
        }
    }

    pub fn crp(&self) -> u16
        ensures { result ≡ (model self.now).crp }
    {
        self.crp
    }

    // The blocks of the resident pages, the newest page first.
    pub fn resident_blocks(&self) -> &[Block]
        ensures { result.now ≡ (model self.now).blocks }
    {
        self.blocks.as_slice()
    }

    // The blocks of pages that left, the one that left last first.
    pub fn retained(&self) -> &[Block]
        ensures { result.now ≡ (model self.now).retained }
    {
        self.retained.as_slice()
    }
}
