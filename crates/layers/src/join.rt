ghost use Rattle.std.specs.Prelude.{◌≡◌, ◌<◌, ◌≤◌, MatchResult};
ghost use Rattle.page.specs.declared.refusal.Refusal.TheVariants.{NoSuchPage};
ghost use Rattle.layers.specs.Join.{LiesAt};
ghost use Rattle.layers.specs.JoinShape.{join_of};

use device::Device;
use page::{Refusal, State, deeper};

// No device has more pages.
const MOST_PAGES: u32 = 4294967295;

// A page of one of the two devices, by its number there.
#[derive(Clone, Copy)]
enum Side {
    First(u32),
    Second(u32),
}

// The pages of one device, and then those of another.
#[derive(Drop)]
pub struct Join<F, S> {
    first: F,
    second: S,
}

impl<F: Device, S: Device> Join<F, S> {
    pub fn new(first: F, second: S) -> Join<F, S>
        ensures first { result.first ≡ first }
        ensures second { result.second ≡ second }
    {
        Join { first, second }
    }

    // Gives the two devices back.
    pub fn into_parts(self) -> (F, S)
        ensures first { result.0 ≡ self.first }
        ensures second { result.1 ≡ self.second }
    {
        let Join { first, second } = self;
        (first, second)
    }

    // Where a page of the join lies.
    fn side(&self, page: u32) -> Result<Side, Refusal>
        ensures { MatchResult result (λ side. (page < 4294967295) × LiesAt (F.Device.size self.now.first) page side) (λ e. (e ≡ NoSuchPage) × (4294967295 ≤ page)) }
    {
        if page >= MOST_PAGES {
            return Err(Refusal::NoSuchPage);
        }
        let split = self.first.count();
        if page < split {
            Ok(Side::First(page))
        } else {
            Ok(Side::Second(page - split))
        }
    }
}

impl<F: Device, S: Device> Device for Join<F, S> {
    ghost size = { (join_of F.Device S.Device).size };

    ghost row = { (join_of F.Device S.Device).row };

    ghost shaped = { (join_of F.Device S.Device).shaped };

    fn count(&self) -> u32 {
        self.first.count().saturating_add(self.second.count())
    }

    fn state(&self, page: u32) -> Result<State, Refusal> {
        let state = match self.side(page)? {
            Side::First(at) => deeper(self.first.state(at))?,
            Side::Second(at) => deeper(self.second.state(at))?,
        };
        Ok(state.deeper())
    }

    // A read and a write differ in the call below alone, which a closure could not make: it would have to
    // take either device.
    fn read(&mut self, page: u32, buffer: &mut [u8; 512]) -> Result<(), Refusal> {
        match self.side(page)? {
            Side::First(at) => deeper(self.first.read(at, buffer))?,
            Side::Second(at) => deeper(self.second.read(at, buffer))?,
        }
        Ok(())
    }

    fn write(&mut self, page: u32, bytes: &[u8; 512]) -> Result<(), Refusal> {
        match self.side(page)? {
            Side::First(at) => deeper(self.first.write(at, bytes))?,
            Side::Second(at) => deeper(self.second.write(at, bytes))?,
        }
        Ok(())
    }
}
