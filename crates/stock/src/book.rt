ghost use Rattle.std.specs.Prelude.{◌≡◌, Some};
ghost use Rattle.stock.specs.Books.{book_of, book_word};

use std::fmt;

// The books that stand in a volume one after another.
#[derive(Clone, Copy, PartialEq, Eq, Debug)]
pub enum Book {
    Batch,
    Fee,
    Archive,
}

// One word.
impl fmt::Display for Book {
    ghost output = { λ b. Some (book_word b) };

    fn fmt<W: fmt::Write>(&self, f: &mut fmt::Formatter<W>) -> fmt::Result {
        f.pad(match self {
            Book::Batch => "batch",
            Book::Fee => "fee",
            Book::Archive => "archive",
        })
    }
}

// How many pages the batch book and the fee book have; the archive has the rest.
#[derive(Clone, Copy, PartialEq, Eq, Debug)]
pub struct Layout {
    pub batch_pages: u32,
    pub fee_pages: u32,
}

impl Layout {
    // The book that a page of the volume belongs to.
    pub fn book_of(&self, page: u32) -> Book
        ensures { result ≡ book_of self.now page }
    {
        if page < self.batch_pages {
            Book::Batch
        } else if page - self.batch_pages < self.fee_pages {
            Book::Fee
        } else {
            Book::Archive
        }
    }
}
