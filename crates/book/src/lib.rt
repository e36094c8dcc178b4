// The page book: what every call of a pool is answered, whatever its frames and its policy are, with
// the laws of the book and what is promised of a whole life of calls.
#![tactic(auto)]

mod figures;
mod grant;
mod life;
mod limits;

pub use figures::cases_bound;
pub use grant::{Kind, Ticket};
pub use life::{answers_per_call, opening_moment};
pub use limits::{last_time, most_grants, page_bytes};
