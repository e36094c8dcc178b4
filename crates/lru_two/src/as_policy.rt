ghost use Rattle.std.specs.Prelude.{◌≡◌};
ghost use Rattle.policy.specs.Sets.{Chosen};
ghost use Rattle.lru_two.specs.Choice.{Choice};
ghost use Rattle.lru_two.specs.Of.{lru_two};

use crate::lru_two::LruTwo;
use blocks::first_to_leave;
use policy::{FrameCount, Policy};

impl Policy for LruTwo {
    ghost Model = { lru_two.Model };

    ghost model = { lru_two.model };

    ghost resident = { lru_two.resident };

    ghost size = { lru_two.size };

    ghost bound = { lru_two.bound };

    ghost emptied = { lru_two.emptied };

    ghost touched = { lru_two.touched };

    ghost admitted = { lru_two.admitted };

    ghost chosen = { lru_two.chosen };

    ghost kept = { lru_two.kept };

    fn frames(&self) -> FrameCount {
        self.frames
    }

    fn restart(&mut self) {
        self.blocks.clear();
        self.retained.clear();
    }

    fn hit(&mut self, page: u32, t: u32) -> bool {
        self.touch(page, t)
    }

    // The choice is also the first page to leave, in the order of HIST2, LAST and page number, of the
    // listed pages outside their period or, where none is outside, of all listed pages.
    fn choose(&self, listed: &[u32], t: u32) -> Option<u32>
        ensures step { result ≡ lru_two.chosen (lru_two.model self.now) listed.now t }
        ensures right { Chosen (lru_two.resident (lru_two.model self.now)) listed.now result }
        ensures first { Choice (lru_two.model self.now) listed.now t result }
    {
        let blocks = self.resident_blocks();
        first_to_leave(blocks, listed, Some(self.crp), t)
            .or_else(|| first_to_leave(blocks, listed, None, t))
            .map(|block| block.page)
    }

    fn admit(&mut self, page: u32, leaving: Option<u32>, t: u32) -> bool {
        if !self.takes(page, leaving) {
            return false;
        }
        let hist2 = self.forget(page);
        self.let_out(leaving);
        self.let_in(page, hist2, t);
        true
    }
}
