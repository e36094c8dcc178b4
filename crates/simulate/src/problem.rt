use crate::settings::Settings;
use std::alloc::AllocError;
use std::io;
use thiserror::Error;

// In what a policy and its simulator differ, or what the policy fails to do.
#[derive(Clone, Copy, Debug, Error)]
pub enum Mismatch {
    #[error("the policy and the simulator differ on a hit")]
    Hit,
    #[error("the victims differ")]
    Victim,
    #[error("neither has a victim")]
    NoVictim,
    #[error("the policy does not admit the page")]
    Refused,
    #[error("what is remembered differs")]
    Remembered,
}

// Why a reference came to nothing.
#[derive(Clone, Copy, Debug)]
pub enum Stop {
    Differs(Mismatch),
    Memory(AllocError),
}

impl From<AllocError> for Stop {
    fn from(error: AllocError) -> Stop {
        Stop::Memory(error)
    }
}

impl Stop {
    // The problem that a stop at a reference to a page is.
    pub(crate) fn at(self, settings: Settings, reference: u32, page: u32) -> Problem {
        match self {
            Stop::Differs(what) => Problem::Differs {
                settings,
                reference,
                page,
                what,
            },
            Stop::Memory(error) => Problem::Memory(error),
        }
    }
}

// Why the program ended early.
#[derive(Debug, Drop, Error)]
pub enum Problem {
    #[error("{settings}: reference {reference}, to page {page}: {what}")]
    Differs {
        settings: Settings,
        reference: u32,
        page: u32,
        what: Mismatch,
    },
    #[error("a frame count is refused")]
    Frames,
    #[error("nothing can be printed: {0}")]
    Output(#[from] io::Error),
    #[error("there is not enough memory")]
    Memory(#[from(alloc)] AllocError),
}
