// Recency lists: records in the order of their last use, over a slice that the caller lends; and tables,
// lists in an array of their own.
#![tactic(auto)]

mod keyed;
mod list;
mod place;
mod table;
#[cfg(test)]
mod tests;

pub use keyed::Keyed;
pub use list::Recency;
pub use place::place_of;
pub use table::Table;
