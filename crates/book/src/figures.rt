ghost use Rattle.book.specs.Figures.{Figures};

// How many pages can have a grant out at once in the worked cases. The worked cases hold, with this
// number.
pub fn cases_bound() -> u32
    ensures { Figures result }
{
    4
}
