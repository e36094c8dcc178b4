ghost use Rattle.std.specs.Prelude.{◌<◌};
ghost use Rattle.pool.specs.Steps.{Clean, DidAdmit, DidBack, DidEvict, DidTake, Fetchable, Placed, Room, Takable};

use crate::pool::Pool;
use crate::vacancy::Vacancy;
use book::Kind;
use device::Device;
use frames::Place;
use policy::Policy;

// The steps by which a page comes into a frame. Kind and page stand apart, as in the call that every clause
// names: a struct of both would be taken apart in each.
impl<D: Device, P: Policy> Pool<D, P> {
    // A frame for a page to come: a free one, or else that of the page that the policy gives up, of
    // those with no grant out.
    pub(crate) fn room(&self, t: u32) -> Option<Vacancy>
        ensures { Room self.now t result }
    {
        if let Some(place) = self.frames.spare(self.policy.frames()) {
            return Some(Vacancy {
                place,
                leaving: None,
            });
        }
        let idle = self.frames.idle();
        // The rules ask that a choice is taken apart by let .. else.
        let Some(page) = self.policy.choose(&idle, t) else {
            return None;
        };
        let place = self.frames.find(page)?;
        Some(Vacancy {
            place,
            leaving: Some(page),
        })
    }

    // Writes the page at a place back, if it was changed.
    pub(crate) fn write_back(&mut self, place: Place)
        requires { place.index < self.old.frames.used }
        ensures { DidBack self.old place.index self.new }
    {
        self.frames.write_back(place, &mut self.device);
    }

    // One grant more for a page that is in a frame.
    pub(crate) fn take(&mut self, kind: Kind, place: Place, page: u32, t: u32)
        requires { Takable self.old kind page t place }
        ensures { DidTake self.old kind page t self.new }
    {
        let _ = self.policy.hit(page, t);
        self.frames.pin(place, kind);
        self.clock = t;
        self.hits = self.hits.saturating_add(1);
    }

    // Writes back the page that leaves a frame, if any.
    fn evict(&mut self, vacancy: Vacancy)
        requires { Placed self.old vacancy }
        ensures { DidEvict self.old vacancy self.new }
    {
        if vacancy.leaving.is_some() {
            self.write_back(vacancy.place);
        }
    }

    // Reads a page into a vacant frame.
    fn admit(&mut self, kind: Kind, vacancy: Vacancy, page: u32, t: u32)
        requires page { Fetchable self.old kind page t vacancy }
        requires clean { Clean self.old vacancy }
        ensures { DidAdmit self.old kind page t vacancy self.new }
    {
        self.frames
            .load(vacancy.place, kind, page, &mut self.device);
        let _ = self.policy.admit(page, vacancy.leaving, t);
        self.clock = t;
        self.fetches = self.fetches.saturating_add(1);
    }

    // A page that is in no frame comes into a vacant one.
    pub(crate) fn fetch(&mut self, kind: Kind, vacancy: Vacancy, page: u32, t: u32)
        requires { Fetchable self.old kind page t vacancy }
        ensures { DidTake self.old kind page t self.new }
    {
        self.evict(vacancy);
        self.admit(kind, vacancy, page, t);
    }
}
