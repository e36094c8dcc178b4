ghost use Rattle.std.specs.Prelude.{ℕ, ◌+◌, ◌/◌, ◌≤◌, length};
ghost use Rattle.policy.specs.Sets.{count};

use policy::FrameCount;
use recency::Table;

// The policy 2Q. Am and A1in hold the resident pages, each page once; A1out holds pages that left
// A1in. Each list stands in a table of the policy's own, from its head.
#[derive(Drop)]
pub struct TwoQ {
    pub(crate) frames: FrameCount,
    pub(crate) am: Table<u32, 64>,
    pub(crate) a1in: Table<u32, 64>,
    pub(crate) a1out: Table<u32, 32>,
    ghost few: { length am + length a1in ≤ frames.value },
    ghost short: { length a1out ≤ frames.value / 2 },
    ghost once: { (p : ℕ) → count p am + count p a1in ≤ 1 },
}
