ghost use Rattle.book.specs.Call.Call.{Unfix, Write};
ghost use Rattle.pool.specs.Did.{Did, DidCopy, done, ticket};
ghost use Rattle.pool.specs.Steps.{Out};

use crate::grant::{Grant, UpdateGrant};
use crate::pool::Pool;
use crate::purpose::Purpose;
use device::Device;
use frames::Place;
use page::Refusal;
use policy::Policy;

impl<D: Device, P: Policy> Pool<D, P> {
    // The place of a grant's page, if the grant is out.
    fn granted<K: Purpose>(&self, grant: &Grant<K>) -> Result<Place, Refusal>
        ensures { Out self.now (ticket K.Purpose grant.now) result }
    {
        let place = self.frames.find(grant.page).ok_or(Refusal::NotGranted)?;
        if grant.mark != self.mark || self.frames.slot(place).pins_of(K::KIND) == 0 {
            return Err(Refusal::NotGranted);
        }
        Ok(place)
    }

    // Copies bytes of the grant's page, from an offset on, over the whole of the buffer.
    pub fn read<K: Purpose>(
        &self,
        grant: &Grant<K>,
        offset: usize,
        buffer: &mut [u8],
    ) -> Result<(), Refusal>
        ensures { DidCopy self.now (ticket K.Purpose grant.now) offset buffer.old result buffer.new }
    {
        let place = self.granted(grant)?;
        self.frames.read(place, offset, buffer)
    }

    // Replaces bytes of the grant's page from an offset on.
    pub fn write(&mut self, grant: &UpdateGrant, offset: usize, bytes: &[u8]) -> Result<(), Refusal>
        ensures { Did self.old (Write grant.now.mark grant.now.page offset bytes.now) (done result) self.new }
    {
        let place = self.granted(grant)?;
        self.frames.write(place, offset, bytes)
    }

    // Gives a grant back. The grant is spent, whether it is accepted or refused.
    pub fn unfix<K: Purpose>(&mut self, mut grant: Grant<K>) -> Result<(), Refusal>
        ensures { Did self.old (Unfix (ticket K.Purpose grant)) (done result) self.new }
    {
        grant.spent = true;
        let kind = K::KIND;
        let place = self.granted(&grant)?;
        self.frames.unpin(place, kind);
        Ok(())
    }
}
