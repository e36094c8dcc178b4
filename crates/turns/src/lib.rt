// The turns of a policy in a pool: what each accepted fix does to it, and lives of calls with the
// policy's part in them.
#![tactic(auto)]

mod laws;

pub use laws::outcomes_per_fix;
