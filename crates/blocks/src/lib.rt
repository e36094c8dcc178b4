// History blocks of pages, and the scan for the page that is to leave.
#![tactic(auto)]

mod block;
mod find;
mod scan;

pub use block::Block;
pub use find::{block_of, hist1_of};
pub use scan::first_to_leave;
