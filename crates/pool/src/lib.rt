// The buffer pool: fix, read, write, unfix, flush, flush-all, close and report, over any device and
// under any policy.
#![tactic(auto)]

mod fetch;
mod fix;
mod flush;
mod grant;
mod open;
mod pool;
mod purpose;
mod vacancy;
mod work;

pub use grant::{Grant, ReadGrant, UpdateGrant};
pub use pool::Pool;
pub use purpose::{Purpose, ToRead, ToUpdate};
