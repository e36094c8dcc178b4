ghost use Rattle.std.specs.Prelude.{◌≡◌, ◌*◌, ◌<◌, ◌≤◌, length, MatchResult};
ghost use Rattle.page.specs.declared.refusal.Refusal.TheVariants.{NoSuchPage};
ghost use Rattle.device.specs.Row.{read_at, filled_at};
ghost use Rattle.ends.specs.Bytes.{pages_in, memory_row};

use page::Refusal;

// How many whole pages a length of bytes has.
pub fn whole_pages(length: usize) -> u32
    ensures { result ≡ pages_in length }
{
    u32::try_from(length / 512).unwrap_or(u32::MAX)
}

// Where a page begins in so many bytes.
pub(crate) fn start(length: usize, page: u32) -> Result<usize, Refusal>
    ensures { MatchResult result (λ at. (page < pages_in length) × (at ≡ page * 512)) (λ e. (e ≡ NoSuchPage) × (pages_in length ≤ page)) }
{
    if page >= whole_pages(length) {
        return Err(Refusal::NoSuchPage);
    }
    Ok(page as usize * 512)
}

// Copies a page of the bytes into the buffer.
pub(crate) fn copy_page(bytes: &[u8], page: u32, buffer: &mut [u8; 512]) -> Result<(), Refusal>
    ensures answer { result ≡ read_at (memory_row bytes.now page) }
    ensures buffer { buffer.new ≡ filled_at (memory_row bytes.now page) buffer.old }
{
    let at = start(bytes.len(), page)?;
    buffer.copy_from_slice(&bytes[at..at + 512]);
    Ok(())
}
