// Taking stock of a volume: what stands on each of its pages, and the sums of it.
#![tactic(auto)]

mod book;
mod entry;
mod line;
mod sums;
mod take;
mod tally;

pub use book::{Book, Layout};
pub use line::{Line, look};
pub use sums::{Measure, total};
pub use take::take_stock;
pub use tally::{Tally, count_records};
