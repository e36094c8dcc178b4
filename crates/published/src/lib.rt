// What a pool does under each policy is what the published algorithm does, among the pages that are
// free.
#![tactic(auto)]

mod lru_two_runs;
mod two_q_runs;

pub use lru_two_runs::first_time;
pub use two_q_runs::counted_at_opening;
