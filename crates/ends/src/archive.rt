ghost use Rattle.std.specs.Prelude.{◌≡◌, length};
ghost use Rattle.ends.specs.Bytes.{pages_in, archive_row};
ghost use Rattle.ends.specs.Shapes.{archive_of};

use crate::bytes::{copy_page, start, whole_pages};
use device::Device;
use page::{Origin, Refusal, State};

// Bytes that can only be read, as pages that are all worn.
#[derive(Drop)]
pub struct Archive<'a> {
    bytes: &'a [u8],
}

impl<'a> Archive<'a> {
    pub fn new(bytes: &'a [u8]) -> Archive<'a>
        ensures { result.bytes.now ≡ bytes.now }
    {
        Archive { bytes }
    }
}

impl<'a> Device for Archive<'a> {
    ghost size = { archive_of.size };

    ghost row = { archive_of.row };

    ghost shaped = { archive_of.shaped };

    fn count(&self) -> u32 {
        whole_pages(self.bytes.len())
    }

    fn state(&self, page: u32) -> Result<State, Refusal> {
        start(self.bytes.len(), page)?;
        Ok(State::Worn(Origin::here(page)))
    }

    fn read(&mut self, page: u32, buffer: &mut [u8; 512]) -> Result<(), Refusal> {
        copy_page(self.bytes, page, buffer)
    }

    fn write(&mut self, page: u32, _bytes: &[u8; 512]) -> Result<(), Refusal> {
        start(self.bytes.len(), page)?;
        Err(Refusal::WornPage(Origin::here(page)))
    }
}
