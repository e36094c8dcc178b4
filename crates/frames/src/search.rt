ghost use Rattle.std.specs.Prelude.{◌≡◌};
ghost use Rattle.frames.specs.Calls.{Found, Nth, Spare};
ghost use Rattle.frames.specs.Table.{frame as frame_at, idle as idle_in};

use crate::frames::Frames;
use crate::place::Place;
use crate::slot::Slot;
use arrayvec::ArrayVec;
use policy::FrameCount;

impl Frames {
    // The place of a page, if it is in a frame.
    pub fn find(&self, page: u32) -> Option<Place>
        ensures { Found self.now.used (frame_at self.now) page result }
    {
        let in_use = &self.slots[..self.used];
        let index = in_use.iter().position(|slot| slot.page == page)?;
        Some(Place { index })
    }

    // The first free place below a bound. A place is made behind the test that bounds it, here and in nth.
    pub fn spare(&self, bound: FrameCount) -> Option<Place>
        ensures { Spare self.now.used bound.value result }
    {
        let index = self.used;
        if index < bound.value() as usize {
            Some(Place { index })
        } else {
            None
        }
    }

    // The pages with no grant out.
    pub fn idle(&self) -> ArrayVec<u32, 64>
        ensures { result.items ≡ idle_in self.now.used (frame_at self.now) }
    {
        let mut pages = ArrayVec::new();
        // A loop, since a collect may fail.
        for slot in &self.slots[..self.used] {
            if slot.is_idle() {
                pages.push(slot.page);
            }
        }
        pages
    }

    // What is known of the frame at a place.
    pub fn slot(&self, place: Place) -> Slot
        ensures { result ≡ (frame_at self.now place.index).slot }
    {
        self.slots[place.index]
    }

    // The place with a number, if its frame is in use.
    pub fn nth(&self, index: usize) -> Option<Place>
        ensures { Nth self.now.used index result }
    {
        if index < self.used {
            Some(Place { index })
        } else {
            None
        }
    }
}
