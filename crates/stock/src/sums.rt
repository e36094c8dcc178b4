ghost use Rattle.std.specs.Prelude.{◌≡◌};
ghost use Rattle.stock.specs.Totals.{measured, share_of, total_of};

use crate::book::Book;
use crate::line::Line;

// What can be summed over the lines of a book: a value and no closure, since a total is defined by it.
#[derive(Clone, Copy, PartialEq, Eq, Debug)]
pub enum Measure {
    Pages,
    Records,
    Malformed,
    Cents,
    Refusals,
}

// What a line counts for in a measure.
fn weight(line: &Line, of: Measure) -> u128
    ensures { result ≡ measured of line.now }
{
    match (of, line.found) {
        (Measure::Pages, _) => 1,
        (Measure::Records, Ok(tally)) => u128::from(tally.used),
        (Measure::Malformed, Ok(tally)) => u128::from(tally.malformed),
        (Measure::Cents, Ok(tally)) => tally.amount,
        (Measure::Refusals, Err(_)) => 1,
        _ => 0,
    }
}

// The same, and nothing for a line of another book.
fn share(line: &Line, book: Book, of: Measure) -> u128
    ensures { result ≡ share_of book of line.now }
{
    if line.book == book {
        weight(line, of)
    } else {
        0
    }
}

// The sum of a measure over the lines of a book, if it fits 128 bits.
pub fn total(lines: &[Line], book: Book, of: Measure) -> Option<u128>
    ensures { result ≡ total_of book of lines.now }
{
    lines
        .iter()
        .try_fold(0u128, |sum, line| sum.checked_add(share(line, book, of)))
}
