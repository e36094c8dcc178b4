ghost use Rattle.std.specs.Prelude.{◌≡◌};
ghost use Rattle.book.specs.Book.{first_no};
ghost use Rattle.book.specs.Call.Call.{Fix};
ghost use Rattle.pool.specs.Did.{Did, Gives, given, granted, ticket};
ghost use Rattle.pool.specs.Meaning.{book as book_of};
ghost use Rattle.pool.specs.Steps.{Timely, early, fixed_answer, verdict};

use crate::grant::Grant;
use crate::pool::Pool;
use crate::purpose::Purpose;
use book::Kind;
use device::Device;
use page::{Refusal, State};
use policy::Policy;

// A page may have this many grants out, of both kinds together.
const MOST_PINS: u32 = 255;

impl<D: Device, P: Policy> Pool<D, P> {
    // The questions of a fix up to the clock. A state is asked them here and in a defect list, each in its own
    // order of arms: three short matches, which one function would make no plainer.
    fn ask(&self, kind: Kind, page: u32) -> Result<(), Refusal>
        ensures time { Timely result self.now.clock }
        ensures answer { result ≡ verdict (first_no (early (book_of self.now) kind page)) }
    {
        match (self.device.state(page)?, kind) {
            (State::Lost(origin), _) => return Err(Refusal::LostPage(origin)),
            (State::Worn(origin), Kind::Updating) => return Err(Refusal::WornPage(origin)),
            (_, _) => {}
        }
        if self.is_full() {
            return Err(Refusal::ClockFull);
        }
        Ok(())
    }

    // A fix of either kind.
    fn fix_kind(&mut self, kind: Kind, page: u32) -> Result<(), Refusal>
        ensures { Did self.old (Fix kind page) (fixed_answer result kind self.old.mark page) self.new }
    {
        self.ask(kind, page)?;
        let t = self.clock + 1;
        if let Some(place) = self.frames.find(page) {
            if self.frames.slot(place).pins() >= MOST_PINS {
                return Err(Refusal::PageFull);
            }
            self.take(kind, place, page, t);
            return Ok(());
        }
        let vacancy = self.room(t).ok_or(Refusal::NoFrame)?;
        self.fetch(kind, vacancy, page, t);
        Ok(())
    }

    // Fixes a page, for what the grant is to be for.
    pub fn fix<K: Purpose>(&mut self, page: u32) -> Result<Grant<K>, Refusal>
        ensures grant { Gives result (given self.old.mark page) }
        ensures did { Did self.old (Fix K.KIND page) (granted (ticket K.Purpose) result) self.new }
    {
        let mark = self.mark;
        self.fix_kind(K::KIND, page)?;
        Ok(Grant::new(mark, page))
    }
}
