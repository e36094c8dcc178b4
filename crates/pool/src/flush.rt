ghost use Rattle.std.specs.Prelude.{◌+◌};
ghost use Rattle.book.specs.Call.Call.{Flush, FlushAll};
ghost use Rattle.book.specs.Call.Answer.{Done};
ghost use Rattle.pool.specs.Did.{Did, DidClose, DidRenew, done};
ghost use Rattle.pool.specs.Steps.{DidSettle};

use crate::pool::Pool;
use device::Device;
use page::Refusal;
use policy::Policy;

impl<D: Device, P: Policy> Pool<D, P> {
    // Writes a page back, if it is in a frame and was changed.
    pub fn flush(&mut self, page: u32) -> Result<(), Refusal>
        ensures { Did self.old (Flush page) (done result) self.new }
    {
        if page >= self.device.count() {
            return Err(Refusal::NoSuchPage);
        }
        if let Some(place) = self.frames.find(page) {
            self.write_back(place);
        }
        Ok(())
    }

    // Writes the page with a number among the frames back, if there is one and it was changed.
    fn settle(&mut self, index: usize)
        ensures { (first : Pool D P D.Device P.Policy) → DidSettle first index self.old → DidSettle first (index + 1) self.new }
    {
        if let Some(place) = self.frames.nth(index) {
            self.write_back(place);
        }
    }

    // Writes every page back that is in a frame and was changed.
    pub fn flush_all(&mut self)
        ensures { Did self.old FlushAll Done self.new }
    {
        // Each step has the whole pool to itself, so that the loop can lend no frame, but only tell its number.
        for i in 0..64 {
            self.settle(i);
        }
    }

    // Writes all back and hands the device out.
    pub fn close(mut self) -> D
    where
        P: Drop,
        ensures { DidClose self result }
    {
        self.flush_all();
        // A value that is not to be let go is taken apart by all its fields.
        let Pool {
            device,
            policy: _,
            frames: _,
            mark: _,
            clock: _,
            hits: _,
            fetches: _,
        } = self;
        device
    }

    // Writes all back and begins anew: the policy is restarted, all frames are free, and the clock and
    // the counts are 0, as after a close and an opening over the same device.
    pub fn renew(&mut self)
        ensures { DidRenew self.old self.new }
    {
        self.flush_all();
        self.policy.restart();
        self.frames.clear();
        self.clock = 0;
        self.hits = 0;
        self.fetches = 0;
    }
}
