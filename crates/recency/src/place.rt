ghost use Rattle.std.specs.Prelude.{◌≡◌, ◌<◌, map, length, IfSome};
ghost use Rattle.recency.specs.Recent.{place_of, Nearest};

use crate::keyed::Keyed;

// The place of a page nearest the head of a list that is only read.
pub fn place_of<T: Keyed>(records: &[T], page: u32) -> Option<usize>
    ensures value { result ≡ place_of page (map T.Keyed.key records.now) }
    ensures nearest { Nearest page (map T.Keyed.key records.now) result }
    ensures within { IfSome result (λ i. i < length records.now) }
{
    records.iter().position(|record| record.page() == page)
}
