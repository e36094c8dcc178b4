ghost use Rattle.std.specs.Prelude.{◌≡◌, ℕ};
ghost use Rattle.stock.specs.Lines.{DidLook, heard_of};

use crate::book::{Book, Layout};
use crate::tally::{Tally, count_records};
use device::Device;
use page::{Refusal, State};

// What taking stock finds of one page: its book, its state, and what a read of it gave.
#[derive(Clone, Copy, PartialEq, Eq, Debug)]
pub struct Line {
    pub page: u32,
    pub book: Book,
    pub state: Result<State, Refusal>,
    pub found: Result<Tally, Refusal>,
}

// Looks at one page of a volume.
pub fn look<D: Device>(volume: &mut D, layout: Layout, page: u32) -> Line
    ensures { DidLook layout (D.Device.size volume.old) (D.Device.row volume.old) page result (D.Device.size volume.new) (D.Device.row volume.new) }
{
    let book = layout.book_of(page);
    let state = volume.state(page);
    let mut bytes = [0; 512];
    let answer = volume.read(page, &mut bytes);
    let found = heard(book, answer, &bytes);
    Line {
        page,
        book,
        state,
        found,
    }
}

// What a read gave: the records of the bytes, or the refusal.
fn heard(book: Book, answer: Result<(), Refusal>, bytes: &[u8; 512]) -> Result<Tally, Refusal>
    ensures { result ≡ heard_of book answer bytes.now }
{
    answer.map(|()| count_records(book, bytes))
}
