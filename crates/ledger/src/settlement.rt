ghost use Rattle.std.specs.Prelude.{◌≡◌};
ghost use Rattle.pool.specs.Meaning.{book as book_of};
ghost use Rattle.ledger.specs.Answered.{settlement};
ghost use Rattle.ledger.specs.Settled.{DidSettle};

use crate::fault::Fault;
use crate::held::Held;
use crate::pair::settle_pair;
use crate::spot::Spot;
use device::Device;
use policy::Policy;
use pool::{Pool, UpdateGrant};
use records::{Batch, Fee};

// Settles the batch with a number and its fee together: both pages are fixed for update at once, both records are
// checked, and both are marked settled, or nothing is altered.
pub fn settle<D: Device, P: Policy>(
    pool: &mut Pool<D, P>,
    number: u32,
    batch: Spot,
    fee: Spot,
) -> Result<(Batch, Fee), Fault>
    ensures answer { result ≡ settlement number (book_of pool.old) batch fee }
    ensures did { DidSettle number pool.old batch fee result pool.new }
{
    let first: UpdateGrant = pool
        .fix(batch.page)
        .map_err(|refusal| Fault::Refused(batch.page, refusal))?;
    // A match, since the first grant has to be spent before the fault is returned.
    let second: UpdateGrant = match pool.fix(fee.page) {
        Ok(grant) => grant,
        Err(refusal) => {
            let _ = pool.unfix(first);
            return Err(Fault::Refused(fee.page, refusal));
        }
    };
    let batch_held = Held {
        grant: &first,
        place: batch.place,
    };
    let fee_held = Held {
        grant: &second,
        place: fee.place,
    };
    let settled = settle_pair(pool, number, batch_held, fee_held);
    let _ = pool.unfix(second);
    let _ = pool.unfix(first);
    settled
}
