ghost use Rattle.stock.specs.Lines.{DidTake};

use crate::book::Layout;
use crate::line::{Line, look};
use device::Device;
use std::alloc::{AllocError, Global};

// Takes stock of a volume, page by page.
pub fn take_stock<D: Device>(
    heap: Global,
    volume: &mut D,
    layout: Layout,
) -> Result<Vec<Line>, AllocError>
    ensures { DidTake layout (D.Device.size volume.old) (D.Device.row volume.old) result (D.Device.size volume.new) (D.Device.row volume.new) }
{
    let mut lines = Vec::new(heap);
    let count = volume.count();
    // Each look alters the volume, and the search of a proof does not follow what a closure alters.
    for page in 0..count {
        lines.push(look(volume, layout, page))?;
    }
    Ok(lines)
}
