use crate::random::Random;
use std::fmt;

// How time goes: by one for each reference, or also standing still, falling and jumping.
#[derive(Clone, Copy, Debug)]
pub enum Times {
    Steady,
    Wild,
}

impl Times {
    pub(crate) fn numbered(number: u32) -> Times {
        if number % 7 < 4 {
            Times::Steady
        } else {
            Times::Wild
        }
    }
}

impl fmt::Display for Times {
    fn fmt<W: fmt::Write>(&self, f: &mut fmt::Formatter<W>) -> fmt::Result {
        match self {
            Times::Steady => write!(f, "steady times"),
            Times::Wild => write!(f, "wild times"),
        }
    }
}

#[derive(Drop)]
pub(crate) struct Watch {
    times: Times,
    now: u32,
    random: Random,
}

impl Watch {
    pub(crate) fn new(times: Times, seed: u32) -> Watch {
        Watch {
            times,
            now: 0,
            random: Random::new(seed.wrapping_add(1)),
        }
    }

    // The time of the next reference.
    pub(crate) fn tick(&mut self) -> u32 {
        self.now = match self.times {
            Times::Steady => self.now.saturating_add(1),
            Times::Wild => self.stray(),
        };
        self.now
    }

    // Of 400 times some 40 repeat, 40 fall by less than 60, 40 jump by less than 200, and one is any
    // time at all.
    fn stray(&mut self) -> u32 {
        match self.random.below(400) {
            0 => self.random.draw(),
            1..=40 => self.now,
            41..=80 => self.now.saturating_sub(self.random.below(60)),
            81..=120 => self.now.saturating_add(self.random.below(200)),
            _ => self.now.saturating_add(1),
        }
    }
}
