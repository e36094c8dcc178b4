ghost use Rattle.std.specs.Prelude.{◌≡◌, ◌<◌, ◌≤◌, MatchOption};
ghost use Rattle.records.specs.Layout.{record_in, place_of};

use crate::{PER_PAGE, RECORD};

// The bytes of the record at a place of a page, and none past the last place.
pub fn record_at(page: &[u8; 512], place: usize) -> Option<[u8; 32]>
    ensures value { result ≡ place_of page.now place }
    ensures cases { MatchOption result (16 ≤ place) (λ bytes. (place < 16) × (bytes ≡ record_in page.now place)) }
{
    let (records, _) = page.as_chunks::<RECORD>();
    records[..PER_PAGE].get(place).copied()
}
