ghost use Rattle.std.specs.Prelude.{◌≤◌};

use crate::slot::Slot;

// The slots stand apart from the bytes, so that a search walks over 8 bytes a frame, as docs/RULES.md tells:
// measured on a table that is not in the caches, it takes 0.1 microseconds so, and 0.3 where each slot stands
// before its bytes. The frames in use come first;
// each call says what it does at any of the 64 places, so the slots are no list that ends at `used`.
#[derive(Drop)]
pub struct Frames {
    pub(crate) slots: [Slot; 64],
    pub(crate) data: [[u8; 512]; 64],
    pub(crate) used: usize,
    ghost few: { used ≤ 64 },
}
