ghost use Rattle.std.specs.Prelude.{◌≡◌};
ghost use Rattle.stock.specs.Entries.{entry_of};

use crate::book::Book;
use records::{BatchRecord, FeeRecord, Malformed};

// What the bytes of a record of the book say to a stock-taker: the amount in cents of a record in use.
// The archive has batch records.
pub(crate) fn entry_of(book: Book, bytes: &[u8; 32]) -> Result<Option<u64>, Malformed>
    ensures { result ≡ entry_of book bytes.now }
{
    match book {
        Book::Fee => Ok(FeeRecord::decode(bytes)?.fields().map(|fee| fee.amount)),
        Book::Batch | Book::Archive => {
            Ok(
                BatchRecord::decode(bytes)?
                    .fields()
                    .map(|batch| batch.face_value),
            )
        }
    }
}
