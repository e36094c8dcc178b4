// Piles of parts: what whoever works through several layers learns, and worked cases.
#![tactic(auto)]

mod figures;
#[cfg(test)]
mod tests;
mod work;

pub use figures::most_pages;
pub use work::work_pile;
