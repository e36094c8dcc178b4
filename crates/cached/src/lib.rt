// The cached device: a pool that is itself a device, in which each read or write is a fix, a copy and
// an unfix.
#![tactic(auto)]

mod as_device;
mod cached;
#[cfg(test)]
mod tests;
mod through;

pub use cached::Cached;
