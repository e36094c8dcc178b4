// The layout of a record of the batch book and of the fee book: 32 bytes, 16 records to a page of 512.
#![tactic(auto)]

ghost use Rattle.records.specs.Laws.{RoundTrips};

mod batch;
mod fee;
mod malformed;
mod place;
mod read;
mod record;
mod show;
mod status;

pub use batch::{Batch, BatchRecord};
pub use fee::{Fee, FeeRecord};
pub use malformed::Malformed;
pub use place::record_at;
pub use record::{Fields, Record};

// The bytes of a record.
pub const RECORD: usize = 32;

// The records of a page.
pub const PER_PAGE: usize = 16;

// How many bytes a record has, with the promise that writing and reading are each other's inverse.
pub fn records_round_trip() -> usize
    ensures { RoundTrips result }
{
    RECORD
}

#[cfg(test)]
mod tests;
