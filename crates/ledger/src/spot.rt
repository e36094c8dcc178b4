// Where a record stands: its page, and its place on the page, of which a page has 16.
#[derive(Clone, Copy, PartialEq, Eq, Debug)]
pub struct Spot {
    pub page: u32,
    pub place: u8,
}
