// Numbers that look random and are the same in every run: xorshift with 32 bits.
#[derive(Drop)]
pub(crate) struct Random {
    state: u32,
}

impl Random {
    // A seed of 0 would give nothing but 0.
    pub(crate) fn new(seed: u32) -> Random {
        Random { state: seed.max(1) }
    }

    pub(crate) fn draw(&mut self) -> u32 {
        let mut x = self.state;
        x ^= x << 13;
        x ^= x >> 17;
        x ^= x << 5;
        self.state = x;
        x
    }

    // A number below a limit, or 0 where the limit is 0.
    pub(crate) fn below(&mut self, limit: u32) -> u32 {
        if limit == 0 {
            return 0;
        }
        self.draw() % limit
    }
}
