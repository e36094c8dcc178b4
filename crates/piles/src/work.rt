ghost use Rattle.piles.specs.Told.{pile_of, PileTold};

use defects::DefectList;
use device::{Device, write_then_read};
use layers::{Join, Window};
use page::Refusal;

// Writes a page and then reads one, through a window over a join over a defect list.
pub fn work_pile<D: Device, E: Device>(
    pile: &mut Window<Join<DefectList<D>, E>>,
    page: u32,
    bytes: &[u8; 512],
    other: u32,
    buffer: &mut [u8; 512],
) -> (Result<(), Refusal>, Result<(), Refusal>)
    ensures { PileTold D.Device E.Device pile.old page bytes.now other buffer.old result.0 result.1 pile.new buffer.new }
{
    write_then_read(pile, page, bytes, other, buffer)
}
