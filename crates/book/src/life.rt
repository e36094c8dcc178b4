ghost use Rattle.book.specs.Life.{Agree, Lives, Opens, Sight};

// The moment of the opening, from which the moments of a life are counted. Every life from an opening
// keeps the promise, at its end and wherever it is cut.
pub fn opening_moment() -> u32
    ensures { (c : Sight) → Opens c → Lives result c }
{
    0
}

// How many answers each call of a life gets. Two lives of the same calls from equal books get the
// same answers, whatever lies below.
pub fn answers_per_call() -> u32
    ensures { Agree result }
{
    1
}
