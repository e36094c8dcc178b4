ghost use Rattle.lru_two.specs.Figures.{Figures};

// How many frames the worked cases have. The worked cases hold, with this number: a theorem of this policy
// alone.
pub fn frames_of_cases() -> u32
    ensures { Figures result }
{
    4
}
