// LRU-2 from its rules: the times of each resident page, and those of the pages that left last.
use crate::simulator::{Simulator, take_out};
use blocks::Block;
use lru_two::LruTwo;
use policy::FrameCount;
use std::alloc::{AllocError, Global};

// The simulator shares no list and no record with the policy that it judges; only agrees() looks at blocks.
#[derive(Clone, Copy, PartialEq, Eq)]
struct History {
    page: u32,
    hist1: u32,
    hist2: u32,
    last: u32,
}

impl From<Block> for History {
    fn from(block: Block) -> History {
        History {
            page: block.page,
            hist1: block.hist1,
            hist2: block.hist2,
            last: block.last,
        }
    }
}

impl History {
    // Whether more than the period has passed since the last reference.
    fn is_outside(self, t: u32, crp: u32) -> bool {
        t.saturating_sub(self.last) > crp
    }

    // Pages leave in the order of these.
    fn rank(self) -> (u32, u32, u32) {
        (self.hist2, self.last, self.page)
    }

    // A reference to the page.
    fn note(&mut self, t: u32, crp: u32) {
        if self.is_outside(t, crp) {
            self.hist2 = self.hist1;
            self.hist1 = t;
        }
        self.last = t;
    }
}

#[derive(Drop)]
pub(crate) struct Histories {
    resident: Vec<History>,
    retained: Vec<History>,
    crp: u32,
    most: usize,
}

// The page of the history that leaves first, among listed pages that a test accepts.
fn first<F: Fn(&History) -> bool>(histories: &[History], listed: &[u32], accepts: F) -> Option<u32>
    requires { F.IsAlwaysCallable accepts }
{
    histories
        .iter()
        .filter(|history| listed.contains(&history.page) && accepts(history))
        .min_by_key(|history| history.rank())
        .map(|history| history.page)
}

impl Histories {
    pub(crate) fn new(heap: Global, frames: FrameCount, crp: u16) -> Histories {
        Histories {
            resident: Vec::new(heap),
            retained: Vec::new(heap),
            crp: u32::from(crp),
            most: frames.value() as usize / 2,
        }
    }

    // The policy keeps its blocks in an order of its own.
    fn resident_agree(&self, blocks: &[Block]) -> bool {
        self.resident.len() == blocks.len()
            && self.resident.iter().all(|history| blocks
                .iter()
                .any(|block| *history == History::from(*block)))
    }

    fn retained_agree(&self, blocks: &[Block]) -> bool {
        self.retained.len() == blocks.len()
            && self
                .retained
                .iter()
                .zip(blocks.iter())
                .all(|(history, block)| *history == History::from(*block))
    }
}

impl Simulator<LruTwo> for Histories {
    fn hit(&mut self, page: u32, t: u32) -> Result<bool, AllocError> {
        let crp = self.crp;
        let Some(history) = self
            .resident
            .iter_mut()
            .find(|history| history.page == page)
        else {
            return Ok(false);
        };
        history.note(t, crp);
        Ok(true)
    }

    fn victim(&self, listed: &[u32], t: u32) -> Option<u32> {
        let crp = self.crp;
        first(&self.resident, listed, |history| history.is_outside(t, crp)).or(first(
            &self.resident,
            listed,
            |_history| true,
        ))
    }

    fn admit(&mut self, page: u32, leaving: Option<u32>, t: u32) -> Result<(), AllocError> {
        let hist2 = take_out(&mut self.retained, |history| history.page == page).map_or(
            0,
            |history| history.hist1,
        );
        self.resident.push(History {
            page,
            hist1: t,
            hist2,
            last: t,
        })?;
        let Some(gone) = leaving else {
            return Ok(());
        };
        if let Some(history) = take_out(&mut self.resident, |history| history.page == gone) {
            self.retained.insert(0, history)?;
            self.retained.truncate(self.most);
        }
        Ok(())
    }

    fn agrees(&self, policy: &LruTwo) -> bool {
        self.resident_agree(policy.resident_blocks()) && self.retained_agree(policy.retained())
    }
}
