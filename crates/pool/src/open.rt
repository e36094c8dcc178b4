ghost use Rattle.std.specs.Prelude.{◌≡◌, nat_le};
ghost use Rattle.pool.specs.Did.{DidOpen, DidOpenAt};
ghost use Rattle.pool.specs.Meaning.{sight};
ghost use Rattle.pool.specs.Promise.{Promised};

use crate::pool::Pool;
use device::Device;
use frames::Frames;
use policy::Policy;

impl<D: Device, P: Policy> Pool<D, P> {
    // Opens a pool over a device: the policy is restarted, all frames are free, and the clock is 0.
    pub fn open(device: D, mut policy: P, mark: u32) -> Pool<D, P>
        ensures opened { DidOpen device policy mark result }
        ensures promised { Promised (sight result) }
    {
        policy.restart();
        Pool {
            device,
            policy,
            frames: Frames::new(),
            mark,
            clock: 0,
            hits: 0,
            fetches: 0,
        }
    }

    // Opens a pool whose clock shows another time than 0: one that is near its last time, say.
    pub fn open_at(device: D, policy: P, mark: u32, time: u32) -> Pool<D, P>
        ensures opened { DidOpenAt device policy mark time result }
        ensures promised { Promised (sight result) }
    {
        let mut pool = Pool::open(device, policy, mark);
        pool.clock = time;
        pool
    }

    // Hits and fetches, together the accepted fixes since the opening.
    pub fn report(&self) -> (u32, u32)
        ensures { (result.0 ≡ self.now.hits) × (result.1 ≡ self.now.fetches) }
    {
        (self.hits, self.fetches)
    }

    // The policy, to look at.
    pub fn policy(&self) -> &P
        ensures { result.now ≡ self.now.policy }
    {
        &self.policy
    }

    // The device below, to look at.
    pub fn device(&self) -> &D
        ensures { result.now ≡ self.now.device }
    {
        &self.device
    }

    // Whether the clock shows its last time.
    pub fn is_full(&self) -> bool
        ensures { result ≡ nat_le 4294967295 self.now.clock }
    {
        self.clock == u32::MAX
    }
}
