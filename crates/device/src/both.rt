ghost use Rattle.device.specs.Calls.{DidBoth};

use crate::device::Device;
use page::Refusal;

// Writes one page of any device and then reads one, and answers what both calls answered.
pub fn write_then_read<D: Device>(
    device: &mut D,
    page: u32,
    bytes: &[u8; 512],
    other: u32,
    buffer: &mut [u8; 512],
) -> (Result<(), Refusal>, Result<(), Refusal>)
    ensures { DidBoth (D.Device.row device.old) page bytes.now other buffer.old result.0 result.1 (D.Device.row device.new) buffer.new }
{
    let wrote = device.write(page, bytes);
    let read = device.read(other, buffer);
    (wrote, read)
}
