// Replacement policies: which page leaves when a frame is needed.
#![tactic(auto)]

mod frames;
mod outcome;
mod places;
mod policy;
mod run;
#[cfg(test)]
mod tests;

pub use frames::FrameCount;
pub use outcome::Outcome;
pub use policy::Policy;
pub use run::run_string;
