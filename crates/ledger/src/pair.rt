ghost use Rattle.std.specs.Prelude.{◌≡◌};
ghost use Rattle.records.specs.Layout.{record_of};
ghost use Rattle.pool.specs.Meaning.{book};
ghost use Rattle.ledger.specs.Answered.{fitting, open_record, open_pair as pair_of, seen_at};
ghost use Rattle.ledger.specs.Held.{GrantOut, spot_of};
ghost use Rattle.ledger.specs.Pair.{DidPair};

use crate::fault::Fault;
use crate::held::Held;
use device::Device;
use policy::Policy;
use pool::Pool;
use records::{Batch, BatchRecord, Fee, FeeRecord, Fields, Record};

// That a grant is out is a fact of pool and grant together, which the type of neither can carry: so it is a
// premise of the private functions below.

// The 32 bytes at a place of the grant's page.
fn look<D: Device, P: Policy>(pool: &Pool<D, P>, held: Held<'_>) -> Result<[u8; 32], Fault>
    ensures { GrantOut pool.now held.entry → result ≡ seen_at (book pool.now).pages (spot_of held.entry).page (spot_of held.entry).place }
{
    let mut bytes = [0; 32];
    pool.read(held.grant, held.place as usize * 32, &mut bytes)
        .map_err(|refusal| Fault::Refused(held.grant.page(), refusal))?;
    Ok(bytes)
}

// The fields of the record that is entered in 32 bytes, by the faults of one that is empty or settled.
fn entered<T: Fields>(page: u32, bytes: &[u8; 32], empty: Fault, settled: Fault) -> Result<T, Fault>
    ensures { result ≡ open_record empty settled page (record_of T.STATUS T.read bytes.now) }
{
    match Record::<T>::decode(bytes).map_err(|malformed| Fault::Malformed(page, malformed))? {
        Record::Entered(fields) => Ok(fields),
        Record::Settled(_) => Err(settled),
        Record::Empty => Err(empty),
    }
}

// Whether a batch has the number, and the fee fits it.
fn fits(number: u32, batch: Batch, fee: Fee) -> Result<(), Fault>
    ensures { result ≡ fitting number batch fee }
{
    if batch.number != number {
        return Err(Fault::OtherBatch(batch.number));
    }
    if fee.batch != batch.number {
        return Err(Fault::OtherBatch(fee.batch));
    }
    if fee.amount > batch.face_value {
        return Err(Fault::FeeAboveValue);
    }
    Ok(())
}

// A batch and its fee that may be settled.
fn open_pair<D: Device, P: Policy>(
    pool: &Pool<D, P>,
    number: u32,
    first: Held<'_>,
    second: Held<'_>,
) -> Result<(Batch, Fee), Fault>
    ensures { GrantOut pool.now first.entry → GrantOut pool.now second.entry → result ≡ pair_of number (book pool.now).pages (spot_of first.entry) (spot_of second.entry) }
{
    let batch_bytes = look(pool, first)?;
    let fee_bytes = look(pool, second)?;
    let batch = entered(
        first.grant.page(),
        &batch_bytes,
        Fault::NoBatch,
        Fault::SettledBatch,
    )?;
    let fee = entered(
        second.grant.page(),
        &fee_bytes,
        Fault::NoFee,
        Fault::SettledFee,
    )?;
    fits(number, batch, fee)?;
    Ok((batch, fee))
}

// Marks a batch and its fee settled, if they may be.
pub(crate) fn settle_pair<D: Device, P: Policy>(
    pool: &mut Pool<D, P>,
    number: u32,
    first: Held<'_>,
    second: Held<'_>,
) -> Result<(Batch, Fee), Fault>
    ensures answer { GrantOut pool.old first.entry → GrantOut pool.old second.entry → result ≡ pair_of number (book pool.old).pages (spot_of first.entry) (spot_of second.entry) }
    ensures did { GrantOut pool.old first.entry → GrantOut pool.old second.entry → DidPair number pool.old (spot_of first.entry) (spot_of second.entry) result pool.new }
{
    let pair = open_pair(pool, number, first, second)?;
    let batch = BatchRecord::Settled(pair.0).encode();
    let fee = FeeRecord::Settled(pair.1).encode();
    let _ = pool.write(first.grant, first.place as usize * 32, &batch);
    let _ = pool.write(second.grant, second.place as usize * 32, &fee);
    Ok(pair)
}
