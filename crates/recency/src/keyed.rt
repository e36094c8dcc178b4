ghost use Rattle.std.specs.Prelude.{◌≡◌, ℕ};

// A record that has a page number.
pub trait Keyed {
    // The page number of a record.
    ghost key: { Self → ℕ };

    fn page(&self) -> u32
        ensures { result ≡ key self.now };
}

// A page number is a record by itself.
impl Keyed for u32 {
    ghost key = { λ p. p };

    fn page(&self) -> u32 {
        *self
    }
}
