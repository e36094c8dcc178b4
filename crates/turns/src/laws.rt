ghost use Rattle.turns.specs.Lived.{LivedLaws};

use policy::Policy;

// How many outcomes each accepted fix of a life has. The laws of lives hold, with this number, under
// any policy.
pub fn outcomes_per_fix<P: Policy>() -> u32
    ensures { LivedLaws P.Policy result }
{
    1
}
