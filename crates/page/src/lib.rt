// Pages, their states, and the refusals of the whole product.
#![tactic(auto)]

mod origin;
mod refusal;
mod show;
mod state;

pub use origin::Origin;
pub use refusal::{Refusal, deeper};
pub use state::State;
