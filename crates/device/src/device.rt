ghost use Rattle.std.specs.Prelude.{◌≡◌, ℕ};
ghost use Rattle.device.specs.Calls.{DidRead, DidWrite};
ghost use Rattle.device.specs.Row.{Row, state_at};
ghost use Rattle.device.specs.Shape.{Shaped};

use page::{Refusal, State};

// A device is a row of pages of 512 bytes. What the parts of a device keep among themselves is carried
// by its type, so every promise holds of every device.
pub trait Device {
    // How many pages the device has.
    ghost size: { Self → ℕ };

    // The page at each place.
    ghost row: { Self → Row };

    // The shape that the row of every device has.
    ghost shaped: { (s : Self) → Shaped (size s) (row s) };

    fn count(&self) -> u32
        ensures { result ≡ size self.now };

    fn state(&self, page: u32) -> Result<State, Refusal>
        ensures { result ≡ state_at (row self.now page) };

    // Copies one page into the buffer.
    fn read(&mut self, page: u32, buffer: &mut [u8; 512]) -> Result<(), Refusal>
        ensures { DidRead (size self.old) (row self.old) page buffer.old result (size self.new) (row self.new) buffer.new };

    // Replaces the bytes of one page.
    fn write(&mut self, page: u32, bytes: &[u8; 512]) -> Result<(), Refusal>
        ensures { DidWrite (size self.old) (row self.old) page bytes.now result (size self.new) (row self.new) };
}
