ghost use Rattle.std.specs.Prelude.{◌≡◌, ◌+◌, ◌<◌, None, MatchResult};
ghost use Rattle.page.specs.declared.refusal.Refusal.TheVariants.{NoSuchPage};
ghost use Rattle.layers.specs.WindowShape.{window_of};

use device::Device;
use page::{Refusal, State, deeper};

// A part of a device: the pages from a first one on, as many as the length says and exist below.
#[derive(Drop)]
pub struct Window<D> {
    below: D,
    first: u32,
    length: u32,
}

impl<D: Device> Window<D> {
    pub fn new(below: D, first: u32, length: u32) -> Window<D>
        ensures below { result.below ≡ below }
        ensures first { result.first ≡ first }
        ensures length { result.length ≡ length }
    {
        Window {
            below,
            first,
            length,
        }
    }

    // Gives the device below back.
    pub fn into_below(self) -> D
        ensures { result ≡ self.below }
    {
        let Window { below, .. } = self;
        below
    }

    // Where a page of the window lies below. No device has a page at 4,294,967,295 or after.
    fn place(&self, page: u32) -> Result<u32, Refusal>
        ensures { MatchResult result (λ at. (page < self.now.length) × (at ≡ self.now.first + page)) (λ e. (e ≡ NoSuchPage) × ((window_of D.Device).row self.now page ≡ None)) }
    {
        if page >= self.length {
            return Err(Refusal::NoSuchPage);
        }
        self.first.checked_add(page).ok_or(Refusal::NoSuchPage)
    }
}

impl<D: Device> Device for Window<D> {
    ghost size = { (window_of D.Device).size };

    ghost row = { (window_of D.Device).row };

    ghost shaped = { (window_of D.Device).shaped };

    fn count(&self) -> u32 {
        self.length
            .min(self.below.count().saturating_sub(self.first))
    }

    fn state(&self, page: u32) -> Result<State, Refusal> {
        let at = self.place(page)?;
        let state = deeper(self.below.state(at))?;
        Ok(state.deeper())
    }

    // A read and a write are three lines each; one function for both would take a closure of the call below.
    fn read(&mut self, page: u32, buffer: &mut [u8; 512]) -> Result<(), Refusal> {
        let at = self.place(page)?;
        deeper(self.below.read(at, buffer))?;
        Ok(())
    }

    fn write(&mut self, page: u32, bytes: &[u8; 512]) -> Result<(), Refusal> {
        let at = self.place(page)?;
        deeper(self.below.write(at, bytes))?;
        Ok(())
    }
}
