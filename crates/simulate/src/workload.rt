use crate::random::Random;
use policy::FrameCount;
use std::fmt;

// How the pages that are asked for follow one another.
#[derive(Clone, Copy, Debug)]
pub enum Workload {
    Uniform,
    Skewed,
    Scan,
    Loop,
    Bursts,
}

pub(crate) const WORKLOADS: [Workload; 5] = [
    Workload::Uniform,
    Workload::Skewed,
    Workload::Scan,
    Workload::Loop,
    Workload::Bursts,
];

impl fmt::Display for Workload {
    fn fmt<W: fmt::Write>(&self, f: &mut fmt::Formatter<W>) -> fmt::Result {
        match self {
            Workload::Uniform => write!(f, "uniform"),
            Workload::Skewed => write!(f, "skewed"),
            Workload::Scan => write!(f, "scan"),
            Workload::Loop => write!(f, "loop"),
            Workload::Bursts => write!(f, "bursts"),
        }
    }
}

// Gives the pages of a workload, one after another.
#[derive(Drop)]
pub(crate) struct Source {
    workload: Workload,
    frames: u32,
    random: Random,
    given: u32,
    page: u32,
    left: u32,
}

impl Source {
    pub(crate) fn new(workload: Workload, frames: FrameCount, seed: u32) -> Source {
        Source {
            workload,
            frames: frames.value(),
            random: Random::new(seed),
            given: 0,
            page: 0,
            left: 0,
        }
    }

    pub(crate) fn page(&mut self) -> u32 {
        let number = self.given;
        self.given = number.wrapping_add(1);
        let span = self.frames.saturating_mul(3);
        match self.workload {
            Workload::Uniform => self.random.below(span),
            Workload::Skewed => self.least_of_three(span),
            Workload::Scan => turn(number, self.frames.saturating_mul(4)),
            Workload::Loop => turn(number, self.frames.saturating_add(self.frames / 8 + 1)),
            Workload::Bursts => self.burst(span),
        }
    }

    fn least_of_three(&mut self, span: u32) -> u32 {
        let least = self.random.below(span).min(self.random.below(span));
        least.min(self.random.below(span))
    }

    // A page one to five times in a row.
    fn burst(&mut self, span: u32) -> u32 {
        if self.left == 0 {
            self.page = self.least_of_three(span);
            self.left = self.random.below(5).saturating_add(1);
        }
        self.left = self.left.saturating_sub(1);
        self.page
    }
}

// A number counted round a circle.
fn turn(number: u32, around: u32) -> u32 {
    number.checked_rem(around).unwrap_or(0)
}
