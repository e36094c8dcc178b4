// The two ends of a volume: devices that stand on bytes and on no other device.
#![tactic(auto)]

mod archive;
mod bytes;
mod memory;

pub use archive::Archive;
pub use bytes::whole_pages;
pub use memory::Memory;
