ghost use Rattle.published.specs.Published.{PublishedTwoQ};

// How many hits, and how many fetches, are counted when a pool opens. With this number, what a pool
// under 2Q does is what the published algorithm does.
pub fn counted_at_opening() -> u32
    ensures { PublishedTwoQ result }
{
    0
}
