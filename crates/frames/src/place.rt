ghost use Rattle.std.specs.Prelude.{◌<◌};

// A place among the frames. None but those below 64 can exist.
#[derive(Clone, Copy)]
pub struct Place {
    pub(crate) index: usize,
    ghost below: { index < 64 },
}
