ghost use Rattle.device.specs.Calls.{DidRead, DidWrite};
ghost use Rattle.cached.specs.Shown.{cached_row, cached_shaped};
ghost use Rattle.cached.specs.Through.{ReadThrough, WriteThrough};

use crate::cached::Cached;
use crate::through::{read_through, write_through};
use device::Device;
use page::{Refusal, State, deeper};
use policy::Policy;

impl<D: Device, P: Policy> Device for Cached<D, P> {
    ghost size = { λ s. D.Device.size s.pool.device };

    ghost row = { λ s. cached_row s.pool };

    ghost shaped = { λ s. cached_shaped s.pool };

    fn count(&self) -> u32 {
        self.pool().device().count()
    }

    // A page that is in a frame has the state that it has below.
    fn state(&self, page: u32) -> Result<State, Refusal> {
        let state = deeper(self.pool().device().state(page))?;
        Ok(state.deeper())
    }

    fn read(&mut self, page: u32, buffer: &mut [u8; 512]) -> Result<(), Refusal>
        ensures did { DidRead (D.Device.size self.old.pool.device) (cached_row self.old.pool) page buffer.old result (D.Device.size self.new.pool.device) (cached_row self.new.pool) buffer.new }
        ensures through { ReadThrough self.old.pool page buffer.old result self.new.pool buffer.new }
    {
        deeper(read_through(&mut self.pool, page, buffer))?;
        Ok(())
    }

    fn write(&mut self, page: u32, bytes: &[u8; 512]) -> Result<(), Refusal>
        ensures did { DidWrite (D.Device.size self.old.pool.device) (cached_row self.old.pool) page bytes.now result (D.Device.size self.new.pool.device) (cached_row self.new.pool) }
        ensures through { WriteThrough self.old.pool page bytes.now result self.new.pool }
    {
        deeper(write_through(&mut self.pool, page, bytes))?;
        Ok(())
    }
}
