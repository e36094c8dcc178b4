// LRU-2, the replacement policy of O'Neil, O'Neil and Weikum (1993), with K = 2.
#![tactic(auto)]

mod as_policy;
mod figures;
mod look;
mod lru_two;
mod run;
mod steps;
#[cfg(test)]
mod tests;

pub use figures::frames_of_cases;
pub use lru_two::LruTwo;
pub use run::run_lru_two;
