ghost use Rattle.std.specs.Prelude.{◌≡◌};
ghost use Rattle.page.specs.Raise.{origin_in, raised_state};

use crate::origin::Origin;

// A sound page is read and written, a worn one is only read, a lost one neither.
#[derive(Clone, Copy, PartialEq, Eq, Debug)]
pub enum State {
    Sound,
    Worn(Origin),
    Lost(Origin),
}

impl State {
    // Where the state was made, if the page is not sound.
    pub fn origin(self) -> Option<Origin>
        ensures { result ≡ origin_in self }
    {
        match self {
            State::Sound => None,
            State::Worn(origin) | State::Lost(origin) => Some(origin),
        }
    }

    // The same state, seen from one layer above.
    pub fn deeper(self) -> State
        ensures { result ≡ raised_state self }
    {
        match self {
            State::Sound => State::Sound,
            State::Worn(origin) => State::Worn(origin.deeper()),
            State::Lost(origin) => State::Lost(origin.deeper()),
        }
    }
}
