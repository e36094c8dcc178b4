use pool::UpdateGrant;

// A grant to update a page, and a place on that page.
#[derive(Clone, Copy)]
pub(crate) struct Held<'a> {
    pub grant: &'a UpdateGrant,
    pub place: u8,
}
