ghost use Rattle.std.specs.Prelude.{◌≡◌, ℕ, ◌+◌, ◌≤◌, false, length, is_ok};
ghost use Rattle.book.specs.Bytes.{patched};
ghost use Rattle.frames.specs.Calls.{end_of as end_in, fits as fits_in, copied, overwritten};
ghost use Rattle.frames.specs.Table.{frame as frame_at, with};

use crate::frames::Frames;
use crate::place::Place;
use crate::slot::Slot;
use page::Refusal;

// Where bytes from an offset on end, if that is within a page.
fn end_of(offset: usize, len: usize) -> Result<usize, Refusal>
    ensures { result ≡ end_in offset len }
{
    offset
        .checked_add(len)
        .filter(|end| *end <= 512)
        .ok_or(Refusal::PastPageEnd)
}

impl Frames {
    // All frames free.
    pub fn new() -> Frames
        ensures { result.used ≡ 0 }
    {
        Frames {
            slots: [Slot::default(); 64],
            data: [[0; 512]; 64],
            used: 0,
        }
    }

    // Frees all frames.
    pub fn clear(&mut self)
        ensures { self.new.used ≡ 0 }
    {
        self.used = 0;
    }

    // Copies bytes from an offset on over the whole of a buffer.
    pub fn read(&self, place: Place, offset: usize, buffer: &mut [u8]) -> Result<(), Refusal>
        ensures answer { result ≡ fits_in offset (length buffer.old) }
        ensures buffer { buffer.new ≡ copied (frame_at self.now place.index) offset buffer.old }
    {
        let end = end_of(offset, buffer.len())?;
        buffer.copy_from_slice(&self.data[place.index][offset..end]);
        Ok(())
    }

    // Replaces bytes from an offset on; the page is changed then, unless there were none.
    pub fn write(&mut self, place: Place, offset: usize, bytes: &[u8]) -> Result<(), Refusal>
        ensures answer { result ≡ fits_in offset (length bytes.now) }
        ensures refused { is_ok result ≡ false → self.new ≡ self.old }
        ensures used { self.new.used ≡ self.old.used }
        ensures frames { (j : ℕ) → frame_at self.new j ≡ with (frame_at self.old) place.index (overwritten (frame_at self.old place.index) offset bytes.now) j }
    {
        let end = end_of(offset, bytes.len())?;
        if bytes.is_empty() {
            return Ok(());
        }
        let page = &mut self.data[place.index];
        page[offset..end].copy_from_slice(bytes);
        self.slots[place.index].changed = true;
        Ok(())
    }
}
