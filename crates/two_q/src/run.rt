ghost use Rattle.two_q.specs.AsPrinted.{AsPrinted};
ghost use Rattle.two_q.specs.Of.{model};

use crate::two_q::TwoQ;
use policy::{Outcome, run_string};

// Runs a reference string on the emptied policy, as far as there are places for outcomes and times:
// all that comes of it is what the printed algorithm does. The theorem is of this policy alone.
pub fn run_two_q(policy: &mut TwoQ, string: &[u32], outcomes: &mut [Outcome]) -> (u32, u32)
    ensures { AsPrinted (model policy.old) string.now outcomes.old result.0 result.1 (model policy.new) outcomes.new }
{
    run_string(policy, string, outcomes)
}
