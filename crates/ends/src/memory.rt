ghost use Rattle.std.specs.Prelude.{◌≡◌, ℕ, ◌<◌, length};
ghost use Rattle.device.specs.Calls.{DidRead, DidWrite};
ghost use Rattle.device.specs.Row.{write_at, written};
ghost use Rattle.ends.specs.Bytes.{pages_in, page_of, tail_of, memory_row};
ghost use Rattle.ends.specs.Shapes.{memory_of};

use crate::bytes::{copy_page, start, whole_pages};
use device::Device;
use page::{Refusal, State};

// Writable bytes of the caller, as pages that are all sound. Archive is a type apart: it borrows its
// bytes shared, has another state and takes no write.
#[derive(Drop)]
pub struct Memory<'a> {
    bytes: &'a mut [u8],
}

impl<'a> Memory<'a> {
    pub fn new(bytes: &'a mut [u8]) -> Memory<'a>
        ensures bytes { result.bytes.now ≡ bytes.old }
        ensures named { result.bytes.ghost_name ≡ bytes.entry.ghost_name }
    {
        Memory { bytes }
    }

    // Hands the caller's bytes back.
    pub fn into_bytes(self) -> &'a mut [u8]
        ensures bytes { result.now ≡ self.entry.bytes.now }
        ensures named { result.ghost_name ≡ self.entry.bytes.ghost_name }
    {
        let bytes = self.bytes;
        bytes
    }

    // The bytes, shared: lent so, they are known to stay.
    fn as_bytes(&self) -> &[u8]
        ensures { result.now ≡ self.now.bytes.now }
    {
        self.bytes
    }
}

impl<'a> Device for Memory<'a> {
    ghost size = { memory_of.size };

    ghost row = { memory_of.row };

    ghost shaped = { memory_of.shaped };

    fn count(&self) -> u32 {
        whole_pages(self.bytes.len())
    }

    fn state(&self, page: u32) -> Result<State, Refusal> {
        start(self.bytes.len(), page)?;
        Ok(State::Sound)
    }

    fn read(&mut self, page: u32, buffer: &mut [u8; 512]) -> Result<(), Refusal>
        ensures did { DidRead (pages_in (length self.old.bytes.now)) (memory_row self.old.bytes.now) page buffer.old result (pages_in (length self.new.bytes.now)) (memory_row self.new.bytes.now) buffer.new }
        ensures bytes { self.new.bytes.now ≡ self.old.bytes.now }
        ensures named { self.new.bytes.ghost_name ≡ self.old.bytes.ghost_name }
    {
        copy_page(self.as_bytes(), page, buffer)
    }

    // The bytes after the last whole page are never touched.
    fn write(&mut self, page: u32, bytes: &[u8; 512]) -> Result<(), Refusal>
        ensures did { DidWrite (pages_in (length self.old.bytes.now)) (memory_row self.old.bytes.now) page bytes.now result (pages_in (length self.new.bytes.now)) (memory_row self.new.bytes.now) }
        ensures tail { tail_of self.new.bytes.now ≡ tail_of self.old.bytes.now }
        ensures named { self.new.bytes.ghost_name ≡ self.old.bytes.ghost_name }
    {
        let at = start(self.bytes.len(), page)?;
        self.bytes[at..at + 512].copy_from_slice(bytes);
        Ok(())
    }
}
