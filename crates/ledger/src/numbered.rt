ghost use Rattle.ledger.specs.Numbered.{DidSettleNumber};

use crate::fault::Fault;
use crate::finding::{Kept, Shelf, find};
use crate::settlement::settle;
use device::Device;
use policy::Policy;
use pool::Pool;
use records::{Batch, Fee};

// How the books stand in the pages of a pool: the batch book first, then the fee book.
#[derive(Clone, Copy, PartialEq, Eq, Debug)]
pub struct Shelves {
    pub fees_from: u32,
    pub fees_to: u32,
}

// Settles the batch with a number and its fee, wherever they stand in their books.
pub fn settle_number<D: Device, P: Policy>(
    pool: &mut Pool<D, P>,
    shelves: Shelves,
    number: u32,
) -> Result<(Batch, Fee), Fault>
    ensures { DidSettleNumber shelves number pool.old result pool.new }
{
    let batches = Shelf {
        kept: Kept::Batches,
        first: 0,
        end: shelves.fees_from,
    };
    // No ok_or: what each search answers is then a case that the proof has by its name.
    let Some(batch) = find(pool, batches, number) else {
        return Err(Fault::NoBatch);
    };
    let fees = Shelf {
        kept: Kept::Fees,
        first: shelves.fees_from,
        end: shelves.fees_to,
    };
    let Some(fee) = find(pool, fees, number) else {
        return Err(Fault::NoFee);
    };
    settle(pool, number, batch, fee)
}
