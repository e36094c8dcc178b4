use crate::random::Random;
use std::alloc::{AllocError, Global};
use std::fmt;

// Which pages are listed for a choice: a page that is held is not.
#[derive(Clone, Copy, Debug)]
pub enum Listing {
    All,
    ThirdHeld,
    One,
    Muddled,
}

const LISTINGS: [Listing; 4] = [
    Listing::All,
    Listing::ThirdHeld,
    Listing::One,
    Listing::Muddled,
];

impl Listing {
    pub(crate) fn numbered(number: u32) -> Listing {
        LISTINGS[number as usize % 4]
    }

    // The listed pages, of those in the frames, as another page is asked for.
    pub(crate) fn listed(
        self,
        heap: Global,
        frames: &[u32],
        page: u32,
        random: &mut Random,
    ) -> Result<Vec<u32>, AllocError> {
        match self {
            Listing::All => Vec::from_slice(heap, frames),
            Listing::ThirdHeld => third_held(heap, frames, random.below(3) as usize),
            Listing::One => one(heap, frames, random.draw() as usize),
            Listing::Muddled => muddled(heap, frames, page),
        }
    }
}

impl fmt::Display for Listing {
    fn fmt<W: fmt::Write>(&self, f: &mut fmt::Formatter<W>) -> fmt::Result {
        match self {
            Listing::All => write!(f, "all listed"),
            Listing::ThirdHeld => write!(f, "a third held"),
            Listing::One => write!(f, "one listed"),
            Listing::Muddled => write!(f, "muddled lists"),
        }
    }
}

// All but every third page.
fn third_held(heap: Global, frames: &[u32], held: usize) -> Result<Vec<u32>, AllocError> {
    frames
        .iter()
        .enumerate()
        .filter(|(i, _resident)| *i % 3 != held)
        .map(|(_i, resident)| *resident)
        .collect(heap)
}

// One page alone, if there is one.
fn one(heap: Global, frames: &[u32], draw: usize) -> Result<Vec<u32>, AllocError> {
    if frames.is_empty() {
        return Ok(Vec::new(heap));
    }
    Ok(vec![in heap; frames[draw % frames.len()]]?)
}

// All pages backward, each twice, with pages between them that are not resident.
fn muddled(heap: Global, frames: &[u32], page: u32) -> Result<Vec<u32>, AllocError> {
    frames
        .iter()
        .rev()
        .flat_map(|resident| [page, *resident, resident.wrapping_add(100000), *resident])
        .collect(heap)
}
