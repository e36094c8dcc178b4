// What a reference to a page came to: a hit, or a fetch, with the page that left for it, if any. An
// Option of an Option would not say which of the two was a hit.
#[derive(Clone, Copy, PartialEq, Eq, Debug)]
pub enum Outcome {
    Hit,
    Fetch(Option<u32>),
}
