// The frames of a pool: which page stands in each, with its grants and its bytes.
#![tactic(auto)]

mod frames;
mod moves;
mod pins;
mod place;
mod search;
mod slot;
mod work;

pub use frames::Frames;
pub use place::Place;
pub use slot::Slot;
