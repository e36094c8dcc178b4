ghost use Rattle.cached.specs.Idle.{Idle};
ghost use Rattle.pool.specs.Did.{DidOpen, DidOpenAt, DidClose};

use device::Device;
use policy::Policy;
use pool::Pool;

// A pool that is used as a device. It is not to be let go: a cached device is closed, and hands the
// device below it out.
pub struct Cached<D: Device, P: Policy> {
    pub(crate) pool: Pool<D, P>,
    // No grant is out between the calls.
    pub ghost idle: { Idle pool },
}

impl<D: Device, P: Policy> Cached<D, P> {
    ghost use Rattle.std.specs.Prelude.{◌≡◌, ℕ};
    ghost use Rattle.device.specs.Row.{up_at};
    ghost use Rattle.cached.specs.Shown.{cached_row};

    // Opens a cached device over a device, as a pool is opened: it shows the row below, one deeper.
    pub fn open(device: D, policy: P, mark: u32) -> Cached<D, P>
        ensures opened { DidOpen device policy mark result.pool }
        ensures row { (k : ℕ) → cached_row result.pool k ≡ up_at (D.Device.row device k) }
    {
        Cached {
            pool: Pool::open(device, policy, mark),
        }
    }

    // Opens a cached device whose clock shows another time than 0: one that is near its last time, say.
    pub fn open_at(device: D, policy: P, mark: u32, time: u32) -> Cached<D, P>
        ensures opened { DidOpenAt device policy mark time result.pool }
        ensures row { (k : ℕ) → cached_row result.pool k ≡ up_at (D.Device.row device k) }
    {
        Cached {
            pool: Pool::open_at(device, policy, mark, time),
        }
    }

    // Writes all back and hands the device below out: it has the pages that were shown.
    pub fn close(self) -> D
    where
        P: Drop,
        ensures closed { DidClose self.pool result }
        ensures row { (k : ℕ) → cached_row self.pool k ≡ up_at (D.Device.row result k) }
    {
        let Cached { pool } = self;
        pool.close()
    }

    // Hits and fetches since the opening or the last renewal.
    pub fn report(&self) -> (u32, u32)
        ensures { (result.0 ≡ self.now.pool.hits) × (result.1 ≡ self.now.pool.fetches) }
    {
        self.pool.report()
    }

    // The policy, to look at.
    pub fn policy(&self) -> &P
        ensures { result.now ≡ self.now.pool.policy }
    {
        self.pool.policy()
    }

    // The pool, to look at.
    pub fn pool(&self) -> &Pool<D, P>
        ensures { result.now ≡ self.now.pool }
    {
        &self.pool
    }
}
