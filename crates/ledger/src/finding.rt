ghost use Rattle.std.specs.Prelude.{◌≡◌, ◌&&◌, nat_lt};
ghost use Rattle.ledger.specs.Finding.{DidFind, DidFindOn, number_in, place_in, stands_at};

use crate::reading::read_page;
use crate::spot::Spot;
use device::Device;
use policy::Policy;
use pool::Pool;
use records::{BatchRecord, FeeRecord, record_at};

// Which book a record is of: a value and no type, since the definitions of a search take the book as one.
#[derive(Clone, Copy, PartialEq, Eq, Debug)]
pub enum Kept {
    Batches,
    Fees,
}

// Where a book stands: in the pages from a first one up to an end.
#[derive(Clone, Copy, PartialEq, Eq, Debug)]
pub struct Shelf {
    pub kept: Kept,
    pub first: u32,
    pub end: u32,
}

// The number of the batch that a record is of, if it is in use.
fn number_in(kept: Kept, bytes: &[u8; 32]) -> Option<u32>
    ensures { result ≡ number_in kept bytes.now }
{
    match kept {
        Kept::Batches => BatchRecord::decode(bytes)
            .ok()?
            .fields()
            .map(|batch| batch.number),
        Kept::Fees => FeeRecord::decode(bytes).ok()?.fields().map(|fee| fee.batch),
    }
}

// Whether the record at a place of a page is of a batch.
fn stands_at(kept: Kept, page: &[u8; 512], place: u8, number: u32) -> bool
    ensures { result ≡ (nat_lt place 16 && stands_at kept page.now place number) }
{
    // As one and_then it got no proof: what the record at a place past the last is equal to stayed open.
    let Some(bytes) = record_at(page, place as usize) else {
        return false;
    };
    number_in(kept, &bytes) == Some(number)
}

// The first place of a batch on a page, if it stands there.
fn place_in(kept: Kept, page: &[u8; 512], number: u32) -> Option<u8>
    ensures { result ≡ place_in kept page.now number }
{
    (0..16).find(|place| stands_at(kept, page, *place, number))
}

// The place of a batch on a page of the pool, if the page can be read and has it.
fn find_on<D: Device, P: Policy>(
    pool: &mut Pool<D, P>,
    kept: Kept,
    page: u32,
    number: u32,
) -> Option<u8>
    ensures { DidFindOn pool.old kept page number result pool.new }
{
    let mut bytes = [0; 512];
    read_page(pool, page, &mut bytes).ok()?;
    place_in(kept, &bytes, number)
}

// Where a batch stands in the pages of a shelf, of those that can be read. A loop, since the search of a proof does not
// follow what a closure alters, and each page read alters the pool.
pub fn find<D: Device, P: Policy>(pool: &mut Pool<D, P>, shelf: Shelf, number: u32) -> Option<Spot>
    ensures { DidFind pool.old shelf number result pool.new }
{
    for page in shelf.first..shelf.end {
        if let Some(place) = find_on(pool, shelf.kept, page, number) {
            return Some(Spot { page, place });
        }
    }
    None
}
