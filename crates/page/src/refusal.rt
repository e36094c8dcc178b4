ghost use Rattle.std.specs.Prelude.{◌≡◌};
ghost use Rattle.page.specs.Numbers.{number_of};
ghost use Rattle.page.specs.Raise.{raised_refusal, raised_result};

use crate::origin::Origin;

// Why a call was refused, for every part of the product. The cases stand in the order of their numbers.
#[derive(Clone, Copy, PartialEq, Eq, Debug)]
pub enum Refusal {
    FrameCount,
    NoSuchPage,
    LostPage(Origin),
    WornPage(Origin),
    ClockFull,
    PageFull,
    NoFrame,
    NotGranted,
    PastPageEnd,
    NoPlace,
    PastLength,
}

impl Refusal {
    // The number by which the refusal is known.
    pub fn number(self) -> u8
        ensures { result ≡ number_of self }
    {
        match self {
            Refusal::FrameCount => 1,
            Refusal::NoSuchPage => 2,
            Refusal::LostPage(_) => 3,
            Refusal::WornPage(_) => 4,
            Refusal::ClockFull => 5,
            Refusal::PageFull => 6,
            Refusal::NoFrame => 7,
            Refusal::NotGranted => 8,
            Refusal::PastPageEnd => 9,
            Refusal::NoPlace => 10,
            Refusal::PastLength => 11,
        }
    }

    // The same refusal, passed on by one layer.
    pub fn deeper(self) -> Refusal
        ensures { result ≡ raised_refusal self }
    {
        match self {
            Refusal::LostPage(origin) => Refusal::LostPage(origin.deeper()),
            Refusal::WornPage(origin) => Refusal::WornPage(origin.deeper()),
            other => other,
        }
    }
}

// An answer of the device below, passed on by one layer.
pub fn deeper<T>(answer: Result<T, Refusal>) -> Result<T, Refusal>
    ensures { result ≡ raised_result answer }
{
    answer.map_err(|refusal| refusal.deeper())
}
