ghost use Rattle.two_q.specs.Of.{two_q};

use crate::nearest::either;
use crate::two_q::TwoQ;
use policy::{FrameCount, Policy};

impl Policy for TwoQ {
    ghost Model = { two_q.Model };

    ghost model = { two_q.model };

    ghost resident = { two_q.resident };

    ghost size = { two_q.size };

    ghost bound = { two_q.bound };

    ghost emptied = { two_q.emptied };

    ghost touched = { two_q.touched };

    ghost admitted = { two_q.admitted };

    ghost chosen = { two_q.chosen };

    ghost kept = { two_q.kept };

    fn frames(&self) -> FrameCount {
        self.frames
    }

    fn restart(&mut self) {
        self.am.clear();
        self.a1in.clear();
        self.a1out.clear();
    }

    fn hit(&mut self, page: u32, _t: u32) -> bool {
        if self.am.contains(page) {
            self.touch(page);
            return true;
        }
        self.a1in.contains(page)
    }

    fn choose(&self, listed: &[u32], _t: u32) -> Option<u32> {
        if self.a1in.len() > self.kin() {
            return either(self.a1in(), self.am(), listed);
        }
        either(self.am(), self.a1in(), listed)
    }

    fn admit(&mut self, page: u32, leaving: Option<u32>, _t: u32) -> bool {
        if !self.takes(page, leaving) {
            return false;
        }
        let known = self.forget(page);
        self.let_out(leaving);
        self.let_in(known, page);
        true
    }
}
