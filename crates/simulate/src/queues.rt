// Full 2Q from its rules: two lists of resident pages and one of pages that left, heads first.
use crate::simulator::{Simulator, take_out};
use policy::FrameCount;
use std::alloc::{AllocError, Global};
use two_q::TwoQ;

#[derive(Drop)]
pub(crate) struct Queues {
    am: Vec<u32>,
    a1in: Vec<u32>,
    a1out: Vec<u32>,
    kin: usize,
    kout: usize,
}

impl Queues {
    pub(crate) fn new(heap: Global, frames: FrameCount) -> Queues {
        Queues {
            am: Vec::new(heap),
            a1in: Vec::new(heap),
            a1out: Vec::new(heap),
            kin: frames.value() as usize / 4,
            kout: frames.value() as usize / 2,
        }
    }
}

// The listed page nearest the tail.
fn nearest_tail(list: &[u32], listed: &[u32]) -> Option<u32> {
    list.iter()
        .rev()
        .find(|&page| listed.contains(page))
        .copied()
}

impl Simulator<TwoQ> for Queues {
    // A hit in A1in is not noted.
    fn hit(&mut self, page: u32, _t: u32) -> Result<bool, AllocError> {
        if take_out(&mut self.am, |other| *other == page).is_some() {
            self.am.insert(0, page)?;
            return Ok(true);
        }
        Ok(self.a1in.contains(&page))
    }

    fn victim(&self, listed: &[u32], _t: u32) -> Option<u32> {
        let of_am = nearest_tail(&self.am, listed);
        let of_a1in = nearest_tail(&self.a1in, listed);
        if self.a1in.len() > self.kin {
            of_a1in.or(of_am)
        } else {
            of_am.or(of_a1in)
        }
    }

    fn admit(&mut self, page: u32, leaving: Option<u32>, _t: u32) -> Result<(), AllocError> {
        let known = take_out(&mut self.a1out, |other| *other == page).is_some();
        if let Some(gone) = leaving {
            if take_out(&mut self.a1in, |other| *other == gone).is_some() {
                self.a1out.insert(0, gone)?;
                self.a1out.truncate(self.kout);
            } else {
                let _ = take_out(&mut self.am, |other| *other == gone);
            }
        }
        if known {
            self.am.insert(0, page)?;
        } else {
            self.a1in.insert(0, page)?;
        }
        Ok(())
    }

    fn agrees(&self, policy: &TwoQ) -> bool {
        self.am.as_slice() == policy.am()
            && self.a1in.as_slice() == policy.a1in()
            && self.a1out.as_slice() == policy.a1out()
    }
}
