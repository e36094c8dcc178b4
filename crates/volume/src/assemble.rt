ghost use Rattle.std.specs.Result.{MatchResult};
ghost use Rattle.volume.specs.Volume.{Opened, Unopened};

use crate::marking::{MarkRefused, mark_all};
use defects::{DefectList, Mark};
use ends::{Archive, Memory};
use layers::Join;

// The batch book on memory under a defect list, then the fee book on memory, then the archive.
pub type Volume<'b, 'f, 'a> = Join<Join<DefectList<Memory<'b>>, Memory<'f>>, Archive<'a>>;

// Puts a volume together over the bytes of its books. This is the one place that knows the parts.
pub fn open_volume<'b, 'f, 'a>(
    batch: &'b mut [u8],
    fees: &'f mut [u8],
    archive: &'a [u8],
    marks: &[Mark],
) -> Result<Volume<'b, 'f, 'a>, MarkRefused>
    ensures { MatchResult result (Opened batch.old fees.old archive.now marks.now) (Unopened batch.old marks.now) }
{
    let mut list = DefectList::new(Memory::new(batch));
    mark_all(&mut list, marks)?;
    let books = Join::new(list, Memory::new(fees));
    Ok(Join::new(books, Archive::new(archive)))
}
