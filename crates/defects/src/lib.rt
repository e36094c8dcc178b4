// The defect list: a layer that marks pages of the device it holds worn or lost.
// A fault from below passes by `?`, raised one deeper: hence `deeper(..)?` and then the value.
#![tactic(auto)]

mod list;
mod mark;
mod marks;

pub use list::DefectList;
pub use mark::{Defect, Mark};
