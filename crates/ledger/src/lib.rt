// The records of the books, worked through a pool: a batch and its fee are settled together.
#![tactic(auto)]

mod fault;
mod finding;
mod held;
mod numbered;
mod pair;
mod reading;
mod settlement;
mod spot;

pub use fault::Fault;
pub use finding::{Kept, Shelf, find};
pub use numbered::{Shelves, settle_number};
pub use reading::read_page;
pub use settlement::settle;
pub use spot::Spot;
