ghost use Rattle.std.specs.Prelude.{◌≡◌, Some};
ghost use Rattle.page.specs.Sentence.{origin_words, reason_of, sentence, word_of};

use crate::origin::Origin;
use crate::refusal::Refusal;
use crate::state::State;
use std::fmt;

impl Refusal {
    // What the refusal says, without its number and origin.
    fn reason(self) -> &'static str
        ensures { result.now ≡ reason_of self }
    {
        match self {
            Refusal::FrameCount => "a frame count is from 4 to 64",
            Refusal::NoSuchPage => "there is no such page",
            Refusal::LostPage(_) => "the page is lost and can be neither read nor written",
            Refusal::WornPage(_) => "the page is worn and can only be read",
            Refusal::ClockFull => "the clock of the pool is full",
            Refusal::PageFull => "the page has 255 grants out and can have no more",
            Refusal::NoFrame => "every frame holds a page with a grant out",
            Refusal::NotGranted => "no such grant of this pool is out",
            Refusal::PastPageEnd => "the bytes would reach past the end of the page",
            Refusal::NoPlace => "the list has no free place",
            Refusal::PastLength => "the place is not below the length of the list",
        }
    }
}

// The page and the depth, as a refusal tells them.
impl fmt::Display for Origin {
    ghost output = { λ o. Some (origin_words o) };

    fn fmt<W: fmt::Write>(&self, f: &mut fmt::Formatter<W>) -> fmt::Result {
        let Origin { page, depth } = *self;
        write!(f, "origin page {page}, depth {depth}")
    }
}

// One sentence with the number and, for a lost or a worn page, its origin.
impl fmt::Display for Refusal {
    ghost output = { λ r. Some (sentence r) };

    fn fmt<W: fmt::Write>(&self, f: &mut fmt::Formatter<W>) -> fmt::Result {
        let number = self.number();
        let reason = self.reason();
        match *self {
            Refusal::LostPage(origin) | Refusal::WornPage(origin) => {
                write!(f, "refused {number}: {reason} ({origin})")
            }
            _ => write!(f, "refused {number}: {reason}"),
        }
    }
}

// One word, without the origin.
impl fmt::Display for State {
    ghost output = { λ s. Some (word_of s) };

    fn fmt<W: fmt::Write>(&self, f: &mut fmt::Formatter<W>) -> fmt::Result {
        f.pad(match self {
            State::Sound => "sound",
            State::Worn(_) => "worn",
            State::Lost(_) => "lost",
        })
    }
}
