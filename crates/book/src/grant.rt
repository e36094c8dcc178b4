// What a grant is for: to read its page, or to read and to write it.
#[derive(Clone, Copy, PartialEq, Eq, Debug)]
pub enum Kind {
    Reading,
    Updating,
}

// What the book hears of a grant.
#[derive(Clone, Copy, PartialEq, Eq, Debug)]
pub struct Ticket {
    pub kind: Kind,
    pub mark: u32,
    pub page: u32,
}
