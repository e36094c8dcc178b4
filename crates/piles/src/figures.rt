ghost use Rattle.piles.specs.Figures.{Figures};

// The largest number of pages that a device may have. The worked cases hold, those at that number too.
pub fn most_pages() -> u32
    ensures { Figures result }
{
    4294967295
}
