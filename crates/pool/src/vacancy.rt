use frames::Place;

// A frame for a page to come, and the page that has to leave it, if any.
#[derive(Clone, Copy)]
pub(crate) struct Vacancy {
    pub(crate) place: Place,
    pub(crate) leaving: Option<u32>,
}
