// The shipped volume: the place where its parts are put together.
#![tactic(auto)]

mod assemble;
mod marking;

pub use assemble::{Volume, open_volume};
pub use marking::{MarkRefused, mark_all};
