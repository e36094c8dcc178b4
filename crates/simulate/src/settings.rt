use crate::listing::Listing;
use crate::times::Times;
use crate::workload::Workload;
use policy::FrameCount;
use std::fmt;

// The policy that is run, with its correlated reference period if it has one.
#[derive(Clone, Copy, Debug)]
pub enum Subject {
    TwoQ,
    LruTwo(u16),
}

impl Subject {
    // How many references a run has.
    fn references(self) -> u32 {
        match self {
            Subject::TwoQ => 2000,
            Subject::LruTwo(_) => 1250,
        }
    }

    // What the policy remembers pages in.
    pub(crate) fn memory(self) -> &'static str {
        match self {
            Subject::TwoQ => "lists",
            Subject::LruTwo(_) => "blocks",
        }
    }
}

// What one run is: the policy, the frames, and what it is driven with.
#[derive(Clone, Copy, Debug)]
pub struct Settings {
    pub subject: Subject,
    pub frames: FrameCount,
    pub workload: Workload,
    pub listing: Listing,
    pub times: Times,
    pub references: u32,
    pub seed: u32,
}

impl Settings {
    // The settings of a run by its number: each workload meets each listing.
    pub(crate) fn numbered(
        subject: Subject,
        frames: FrameCount,
        workload: Workload,
        number: u32,
    ) -> Settings {
        Settings {
            subject,
            frames,
            workload,
            listing: Listing::numbered(number),
            times: Times::numbered(number),
            references: subject.references(),
            seed: number.wrapping_mul(2654435761).wrapping_add(97),
        }
    }
}

impl fmt::Display for Settings {
    fn fmt<W: fmt::Write>(&self, f: &mut fmt::Formatter<W>) -> fmt::Result {
        let frames = self.frames.value();
        match self.subject {
            Subject::TwoQ => write!(f, "2q B {frames} ")?,
            Subject::LruTwo(crp) => write!(f, "lru-2 B {frames} CRP {crp} ")?,
        }
        let workload = self.workload;
        let listing = self.listing;
        let times = self.times;
        let references = self.references;
        write!(f, "{workload}, {listing}, {times}, {references} references")
    }
}
