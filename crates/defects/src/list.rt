ghost use Rattle.std.specs.Prelude.{◌≡◌};
ghost use Rattle.defects.specs.Defects.{unmarked};
ghost use Rattle.defects.specs.DefectShape.{defect_of};
ghost use Rattle.defects.specs.Marked.{DidMark};

use crate::mark::{Defect, Mark};
use crate::marks::{mark_of, spot, worse, worse_mark};
use device::Device;
use page::{Refusal, State, deeper};

// A device of which up to 16 pages are marked worn or lost. Marks are made while the list is held by
// nobody else: a part that stands on the list owns it. The places are fixed, so that no mark fails for
// memory, and free or taken each, as the definitions of the row and of a mark's answer speak of them.
#[derive(Drop)]
pub struct DefectList<D> {
    below: D,
    marks: [Option<Mark>; 16],
}

impl<D: Device> DefectList<D> {
    #[tactic(auto, unfolding(crate::specs::Defects::unmarked))]
    pub fn new(below: D) -> DefectList<D>
        ensures below { result.below ≡ below }
        ensures marks { result.marks ≡ unmarked }
    {
        DefectList {
            below,
            marks: [None; 16],
        }
    }

    // Marks a page. Marking it twice keeps the worse mark.
    pub fn mark(&mut self, page: u32, defect: Defect) -> Result<(), Refusal>
        ensures { DidMark D.Device self.old page defect result self.new }
    {
        if page >= self.below.count() {
            return Err(Refusal::NoSuchPage);
        }
        let place = spot(&self.marks, page).ok_or(Refusal::NoPlace)?;
        let defect = worse_mark(mark_of(&self.marks, page), defect);
        self.marks[place] = Some(Mark { page, defect });
        Ok(())
    }

    // Gives the device below back.
    pub fn into_below(self) -> D
        ensures { result ≡ self.below }
    {
        let DefectList { below, marks: _ } = self;
        below
    }
}

impl<D: Device> Device for DefectList<D> {
    ghost size = { (defect_of D.Device).size };

    ghost row = { (defect_of D.Device).row };

    ghost shaped = { (defect_of D.Device).shaped };

    fn count(&self) -> u32 {
        self.below.count()
    }

    fn state(&self, page: u32) -> Result<State, Refusal> {
        let state = deeper(self.below.state(page))?;
        Ok(worse(mark_of(&self.marks, page), page, state.deeper()))
    }

    // A read asks one question of the state and a write two: in one function they would be no plainer.
    fn read(&mut self, page: u32, buffer: &mut [u8; 512]) -> Result<(), Refusal> {
        if let State::Lost(origin) = self.state(page)? {
            return Err(Refusal::LostPage(origin));
        }
        deeper(self.below.read(page, buffer))?;
        Ok(())
    }

    fn write(&mut self, page: u32, bytes: &[u8; 512]) -> Result<(), Refusal> {
        match self.state(page)? {
            State::Lost(origin) => return Err(Refusal::LostPage(origin)),
            State::Worn(origin) => return Err(Refusal::WornPage(origin)),
            State::Sound => {}
        }
        deeper(self.below.write(page, bytes))?;
        Ok(())
    }
}
