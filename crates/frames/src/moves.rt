ghost use Rattle.std.specs.Prelude.{◌≡◌, ℕ, ◌+◌, max, cond, []};
ghost use Rattle.device.specs.Calls.{DidWrite};
ghost use Rattle.frames.specs.Calls.{DidLoad, DidStore};
ghost use Rattle.frames.specs.Table.{frame as frame_at, pinned as pinned_of, unpinned as unpinned_of, with, with_slot};

use crate::frames::Frames;
use crate::place::Place;
use crate::slot::Slot;
use book::Kind;
use device::Device;
use page::Refusal;

// What a call leaves as it was is said of the frames before and after, which no invariant of one value can.
impl Frames {
    // One grant of a kind more for the page at a place. It and unpin are two lines each: one call for both
    // would take the change as a closure, and say less.
    pub fn pin(&mut self, place: Place, kind: Kind)
        ensures used { self.new.used ≡ self.old.used }
        ensures frames { (j : ℕ) → frame_at self.new j ≡ with (frame_at self.old) place.index (with_slot (frame_at self.old place.index) (pinned_of kind (frame_at self.old place.index).slot)) j }
    {
        let slot = self.slots[place.index];
        self.slots[place.index] = slot.pinned(kind);
    }

    // One grant of a kind less.
    pub fn unpin(&mut self, place: Place, kind: Kind)
        ensures used { self.new.used ≡ self.old.used }
        ensures frames { (j : ℕ) → frame_at self.new j ≡ with (frame_at self.old) place.index (with_slot (frame_at self.old place.index) (unpinned_of kind (frame_at self.old place.index).slot)) j }
    {
        let slot = self.slots[place.index];
        self.slots[place.index] = slot.unpinned(kind);
    }

    // Hands the bytes at a place to the device.
    fn send<D: Device>(&self, place: Place, device: &mut D) -> Result<(), Refusal>
        ensures { DidWrite (D.Device.size device.old) (D.Device.row device.old) (frame_at self.now place.index).slot.page (frame_at self.now place.index).bytes result (D.Device.size device.new) (D.Device.row device.new) }
    {
        device.write(self.slots[place.index].page, &self.data[place.index])
    }

    // Writes the page at a place back, if it was changed.
    pub fn write_back<D: Device>(&mut self, place: Place, device: &mut D)
        ensures used { self.new.used ≡ self.old.used }
        ensures frames { (j : ℕ) → frame_at self.new j ≡ with (frame_at self.old) place.index (frame_at self.new place.index) j }
        ensures did { DidStore D.Device (frame_at self.old place.index) device.old (frame_at self.new place.index) device.new }
    {
        if self.slots[place.index].changed {
            let _ = self.send(place, device);
            self.slots[place.index].changed = false;
        }
    }

    // Reads a page into the frame at a place, which is then in use, with one grant out.
    pub fn load<D: Device>(&mut self, place: Place, kind: Kind, page: u32, device: &mut D)
        ensures used { self.new.used ≡ max self.old.used (place.index + 1) }
        ensures frames { (j : ℕ) → frame_at self.new j ≡ with (frame_at self.old) place.index (frame_at self.new place.index) j }
        ensures did { DidLoad D.Device (frame_at self.old place.index) kind page device.old (frame_at self.new place.index) device.new }
    {
        let _ = device.read(page, &mut self.data[place.index]);
        self.slots[place.index] = Slot::fresh(kind, page);
        self.used = self.used.max(place.index + 1);
    }
}
