use recency::Keyed;

// The history block of a page: the time of its last uncorrelated reference, the time of the one
// before that, and the time of its last reference of any kind. 0 means none, as the rules say.
#[derive(Clone, Copy, PartialEq, Eq, Debug)]
pub struct Block {
    pub page: u32,
    pub hist1: u32,
    pub hist2: u32,
    pub last: u32,
}

impl Keyed for Block {
    ghost key = { λ b. b.page };

    fn page(&self) -> u32 {
        self.page
    }
}
