ghost use Rattle.std.specs.Prelude.{◌≡◌, MatchResult};
ghost use Rattle.office.specs.declared.take.StockFault.TheVariants as fault;
ghost use Rattle.office.specs.Stocks.{Taken, NotTaken};

use defects::Mark;
use ends::whole_pages;
use std::alloc::{AllocError, Global};
use stock::{Layout, Line, take_stock};
use volume::{MarkRefused, open_volume};

// Why no stock was taken.
#[derive(Clone, Copy, Debug)]
pub enum StockFault {
    Mark(MarkRefused),
    Memory,
}

impl From<MarkRefused> for StockFault {
    ghost from_gives = { λ e r. r ≡ fault.Mark e };

    fn from(refused: MarkRefused) -> StockFault {
        StockFault::Mark(refused)
    }
}

impl From<AllocError> for StockFault {
    ghost from_gives = { λ _ r. r ≡ fault.Memory };

    fn from(_error: AllocError) -> StockFault {
        StockFault::Memory
    }
}

// Puts the shipped volume together over the bytes of its books and takes stock of it.
pub fn stock_of(
    heap: Global,
    batch: &mut [u8],
    fees: &mut [u8],
    archive: &[u8],
    marks: &[Mark],
) -> Result<Vec<Line>, StockFault>
    ensures { MatchResult result (Taken batch.old fees.old archive.now marks.now) (NotTaken batch.old marks.now) }
{
    // The same four lines stand in the program that works a volume: stock knows no bytes of books.
    let layout = Layout {
        batch_pages: whole_pages(batch.len()),
        fee_pages: whole_pages(fees.len()),
    };
    let mut volume = open_volume(batch, fees, archive, marks)?;
    let lines = take_stock(heap, &mut volume, layout)?;
    Ok(lines)
}
