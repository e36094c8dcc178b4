// Layers that show other pages than the devices they hold: a part of one, or two in a row.
// A fault from below passes by `?`, raised one deeper: hence `deeper(..)?` and then the value.
#![tactic(auto)]

mod join;
mod window;

pub use join::Join;
pub use window::Window;
