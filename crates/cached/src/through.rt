ghost use Rattle.cached.specs.Idle.{Idle};
ghost use Rattle.cached.specs.Steps.{DidGrant, DidReadThrough, DidWriteThrough};

use device::Device;
use page::Refusal;
use policy::Policy;
use pool::{Grant, Pool, Purpose, ReadGrant, UpdateGrant};

// A grant for a page, of a pool with no grant out. The clock is the last question that such a pool can
// answer no: then all else was answered yes, and the pool is renewed.
fn grant<D: Device, P: Policy, K: Purpose>(
    pool: &mut Pool<D, P>,
    page: u32,
) -> Result<Grant<K>, Refusal>
    requires { Idle pool.old }
    ensures { DidGrant pool.old K.KIND page result pool.new }
{
    let refusal = match pool.fix::<K>(page) {
        Ok(grant) => return Ok(grant),
        Err(refusal) => refusal,
    };
    if refusal != Refusal::ClockFull {
        return Err(refusal);
    }
    pool.renew();
    pool.fix(page)
}

// Reads a page: a fix, a copy and an unfix.
pub(crate) fn read_through<D: Device, P: Policy>(
    pool: &mut Pool<D, P>,
    page: u32,
    buffer: &mut [u8; 512],
) -> Result<(), Refusal>
    requires { Idle pool.old }
    ensures { DidReadThrough pool.old page buffer.old result pool.new buffer.new }
{
    let grant: ReadGrant = grant(pool, page)?;
    let read = pool.read(&grant, 0, buffer);
    let _ = pool.unfix(grant);
    read
}

// Writes a page: a fix, a write and an unfix.
pub(crate) fn write_through<D: Device, P: Policy>(
    pool: &mut Pool<D, P>,
    page: u32,
    bytes: &[u8; 512],
) -> Result<(), Refusal>
    requires { Idle pool.old }
    ensures { DidWriteThrough pool.old page bytes.now result pool.new }
{
    let grant: UpdateGrant = grant(pool, page)?;
    let wrote = pool.write(&grant, 0, bytes);
    let _ = pool.unfix(grant);
    wrote
}
