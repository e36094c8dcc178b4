ghost use Rattle.ledger.specs.Reading.{DidReadPage};

use device::Device;
use page::Refusal;
use policy::Policy;
use pool::{Pool, ReadGrant};

// Reads a whole page through the pool: a fix, a copy and an unfix.
pub fn read_page<D: Device, P: Policy>(
    pool: &mut Pool<D, P>,
    page: u32,
    buffer: &mut [u8; 512],
) -> Result<(), Refusal>
    ensures { DidReadPage pool.old page buffer.old result pool.new buffer.new }
{
    let grant: ReadGrant = pool.fix(page)?;
    let read = pool.read(&grant, 0, buffer);
    let _ = pool.unfix(grant);
    read
}
