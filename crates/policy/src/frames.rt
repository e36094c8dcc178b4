ghost use Rattle.std.specs.Prelude.{◌≡◌, ◌≤◌, MatchResult};
ghost use Rattle.page.specs.declared.refusal.Refusal.TheVariants as refusal;
ghost use Rattle.policy.specs.Frames.{InRange, OutOfRange};

use page::Refusal;

// How many frames a pool has. No frame count below 4 or above 64 can exist.
#[derive(Clone, Copy, PartialEq, Eq, Debug)]
pub struct FrameCount {
    value: u32,
    ghost least: { 4 ≤ value },
    ghost most: { value ≤ 64 },
}

impl FrameCount {
    // The frame count of a number; any number from 4 to 64 has one.
    pub fn new(number: u32) -> Result<FrameCount, Refusal>
        ensures { MatchResult result (λ f. InRange number × (f.value ≡ number)) (λ e. OutOfRange number × (e ≡ refusal.FrameCount)) }
    {
        if !(4..=64).contains(&number) {
            return Err(Refusal::FrameCount);
        }
        Ok(FrameCount { value: number })
    }

    pub fn value(self) -> u32
        ensures value { result ≡ self.value }
        ensures least { 4 ≤ result }
        ensures most { result ≤ 64 }
    {
        self.value
    }
}

impl TryFrom<u32> for FrameCount {
    type Error = Refusal;

    fn try_from(number: u32) -> Result<FrameCount, Refusal>
        ensures { MatchResult result (λ f. InRange number × (f.value ≡ number)) (λ e. OutOfRange number × (e ≡ refusal.FrameCount)) }
    {
        FrameCount::new(number)
    }
}
