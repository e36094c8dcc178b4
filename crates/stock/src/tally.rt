ghost use Rattle.std.specs.Prelude.{◌≡◌, ◌+◌, ◌^◌, ◌<◌};
ghost use Rattle.stock.specs.Tallies.{tally_more, tally_of};

use crate::book::Book;
use crate::entry::entry_of;
use records::{Malformed, PER_PAGE, RECORD};

// What stands on a page: records in use, malformed ones, and the sum of the amounts in cents.
#[derive(Clone, Copy, Default, PartialEq, Eq, Debug)]
pub struct Tally {
    pub used: u32,
    pub malformed: u32,
    pub amount: u128,
}

impl Tally {
    // One record more.
    fn with(self, entry: Result<Option<u64>, Malformed>) -> Tally
        requires used { self.used + 1 < 2 ^ 32 }
        requires malformed { self.malformed + 1 < 2 ^ 32 }
        requires amount { self.amount + 2 ^ 64 < 2 ^ 128 }
        ensures more { result ≡ tally_more self entry }
        ensures bound { result.amount < self.amount + 2 ^ 64 }
    {
        match entry {
            Ok(None) => self,
            Ok(Some(amount)) => Tally {
                used: self.used + 1,
                amount: self.amount + u128::from(amount),
                ..self
            },
            Err(_) => Tally {
                malformed: self.malformed + 1,
                ..self
            },
        }
    }
}

// Counts the records of a page of the book.
pub fn count_records(book: Book, page: &[u8; 512]) -> Tally
    ensures { result ≡ tally_of book page.now }
{
    let mut tally = Tally::default();
    let (records, _) = page.as_chunks::<RECORD>();
    // A loop, since `with` asks for room in the sums, which a closure could not tell of.
    for record in &records[..PER_PAGE] {
        tally = tally.with(entry_of(book, record));
    }
    tally
}
