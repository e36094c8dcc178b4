// What is known of a frame beside its bytes: its page, the grants out for it of each kind, and
// whether the page was changed since it was last written back.
#[derive(Clone, Copy, Default)]
pub struct Slot {
    pub page: u32,
    pub readers: u8,
    pub updaters: u8,
    pub changed: bool,
}
