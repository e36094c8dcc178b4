// Devices: what every part of a volume is, whatever it stands on.
#![tactic(auto)]

mod both;
mod device;

pub use both::write_then_read;
pub use device::Device;
