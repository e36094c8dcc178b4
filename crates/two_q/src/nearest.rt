// The listed page nearest the tail of a list.
ghost use Rattle.std.specs.Prelude.{◌≡◌};
ghost use Rattle.std.specs.Option.{option_or};
ghost use Rattle.two_q.specs.Lists.{nearest_tail};

// It is the first that is met from the tail.
fn latest(list: &[u32], listed: &[u32]) -> Option<u32>
    ensures { result ≡ nearest_tail listed.now list.now }
{
    list.iter()
        .rev()
        .copied()
        .find(|page| listed.contains(page))
}

// The listed page nearest the tail of the first list or, if that has none, of the second.
pub(crate) fn either(first: &[u32], second: &[u32], listed: &[u32]) -> Option<u32>
    ensures { result ≡ option_or (nearest_tail listed.now first.now) (nearest_tail listed.now second.now) }
{
    latest(first, listed).or_else(|| latest(second, listed))
}
