// Full 2Q, the replacement policy of Johnson and Shasha (1994).
#![tactic(auto)]

mod as_policy;
mod figures;
mod lists;
mod nearest;
mod run;
mod steps;
#[cfg(test)]
mod tests;
mod two_q;

pub use figures::frames_of_cases;
pub use run::run_two_q;
pub use two_q::TwoQ;
