ghost use Rattle.std.specs.Prelude.{◌≡◌};
ghost use Rattle.two_q.specs.Of.{model};
ghost use Rattle.two_q.specs.Model.{empty};

use crate::two_q::TwoQ;
use policy::FrameCount;
use recency::Table;

// Ways to make the policy and to look at its lists, each from its head.
impl TwoQ {
    pub fn new(frames: FrameCount) -> TwoQ
        ensures { model result ≡ empty frames.value }
    {
        TwoQ {
            frames,
            am: Table::new(0),
            a1in: Table::new(0),
            a1out: Table::new(0),
        }
    }

    pub fn am(&self) -> &[u32]
        ensures { result.now ≡ (model self.now).am }
    {
        self.am.as_slice()
    }

    pub fn a1in(&self) -> &[u32]
        ensures { result.now ≡ (model self.now).a1in }
    {
        self.a1in.as_slice()
    }

    pub fn a1out(&self) -> &[u32]
        ensures { result.now ≡ (model self.now).a1out }
    {
        self.a1out.as_slice()
    }
}
