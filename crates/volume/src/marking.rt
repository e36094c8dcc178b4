ghost use Rattle.volume.specs.Listed.{DidMarkAll};

use defects::{DefectList, Mark};
use device::Device;
use page::Refusal;

// Which of a list of marks was refused, counted from 0, and why.
#[derive(Clone, Copy, PartialEq, Eq, Debug)]
pub struct MarkRefused {
    pub at: usize,
    pub refusal: Refusal,
}

// Makes marks one after another, up to the first that is refused.
pub fn mark_all<D: Device>(list: &mut DefectList<D>, marks: &[Mark]) -> Result<(), MarkRefused>
    ensures { DidMarkAll D.Device list.old marks.now result list.new }
{
    // Each mark alters the list, and the search of a proof does not follow what a closure alters.
    for (at, mark) in marks.iter().enumerate() {
        list.mark(mark.page, mark.defect)
            .map_err(|refusal| MarkRefused { at, refusal })?;
    }
    Ok(())
}
