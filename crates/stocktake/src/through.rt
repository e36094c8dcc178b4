ghost use Rattle.stocktake.specs.Through.{DidLine};

use device::Device;
use ledger::read_page;
use policy::Policy;
use pool::Pool;
use stock::{Layout, Line, count_records};

// Looks at one page of a volume through the pool over it: as `look` of stock, but a pool is no device.
pub fn line_through<D: Device, P: Policy>(pool: &mut Pool<D, P>, layout: Layout, page: u32) -> Line
    ensures { DidLine layout pool.old page result pool.new }
{
    let book = layout.book_of(page);
    let state = pool.device().state(page);
    let mut bytes = [0; 512];
    let found = read_page(pool, page, &mut bytes).map(|()| count_records(book, &bytes));
    Line {
        page,
        book,
        state,
        found,
    }
}
