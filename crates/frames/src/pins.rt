ghost use Rattle.std.specs.Prelude.{◌≡◌, ◌==◌};
ghost use Rattle.frames.specs.Table.{fresh as fresh_of, pinned as pinned_of, pins as pins_in, pins_of, unpinned as unpinned_of, with_pins as with_pins_of};

use crate::slot::Slot;
use book::Kind;

// The grants out for the page of a frame.
impl Slot {
    // The slot of a page that was just read, with one grant out.
    pub(crate) fn fresh(kind: Kind, page: u32) -> Slot
        ensures { result ≡ fresh_of kind page }
    {
        let unpinned = Slot {
            page,
            ..Slot::default()
        };
        unpinned.with_pins(kind, 1)
    }

    // How many grants are out, of both kinds.
    pub fn pins(self) -> u32
        ensures { result ≡ pins_in self }
    {
        self.readers as u32 + self.updaters as u32
    }

    // How many grants of one kind are out.
    pub fn pins_of(self, kind: Kind) -> u8
        ensures { result ≡ pins_of kind self }
    {
        match kind {
            Kind::Reading => self.readers,
            Kind::Updating => self.updaters,
        }
    }

    // The slot with another count of grants of one kind.
    fn with_pins(self, kind: Kind, count: u8) -> Slot
        ensures { result ≡ with_pins_of kind self count }
    {
        let mut slot = self;
        match kind {
            Kind::Reading => slot.readers = count,
            Kind::Updating => slot.updaters = count,
        }
        slot
    }

    // Whether no grant is out.
    pub(crate) fn is_idle(self) -> bool
        ensures { result ≡ (pins_in self == 0) }
    {
        self.pins() == 0
    }

    // One grant of a kind more, up to 255.
    pub(crate) fn pinned(self, kind: Kind) -> Slot
        ensures { result ≡ pinned_of kind self }
    {
        self.with_pins(kind, self.pins_of(kind).saturating_add(1))
    }

    // One grant of a kind less, if there is one.
    pub(crate) fn unpinned(self, kind: Kind) -> Slot
        ensures { result ≡ unpinned_of kind self }
    {
        self.with_pins(kind, self.pins_of(kind).saturating_sub(1))
    }
}
