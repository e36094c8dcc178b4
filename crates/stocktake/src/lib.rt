// The stock of a volume, taken through the pool over it.
#![tactic(auto)]

mod through;

pub use through::line_through;
