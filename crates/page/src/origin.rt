ghost use Rattle.std.specs.Prelude.{◌≡◌};
ghost use Rattle.page.specs.Raise.{raised};

// Where a worn or a lost page got its state: the page's number at the part that made the state, and
// how many layers lie between the device that was asked and that part. A depth of 255 stays 255.
#[derive(Clone, Copy, PartialEq, Eq, Debug)]
pub struct Origin {
    pub page: u32,
    pub depth: u8,
}

impl Origin {
    // The origin of a state that the part asked made itself.
    pub fn here(page: u32) -> Origin
        ensures { result ≡ record { page = page; depth = 0 } }
    {
        Origin { page, depth: 0 }
    }

    // The same origin, seen from one layer above.
    pub fn deeper(self) -> Origin
        ensures { result ≡ raised self }
    {
        Origin {
            page: self.page,
            depth: self.depth.saturating_add(1),
        }
    }
}
