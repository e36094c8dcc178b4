ghost use Rattle.published.specs.Published.{PublishedLruTwo};

// The time of the first accepted fix of a pool. With this number, what a pool under LRU-2 does is what
// the published algorithm does.
pub fn first_time() -> u32
    ensures { PublishedLruTwo result }
{
    1
}
