ghost use Rattle.std.specs.Prelude.{◌≡◌, Some};
ghost use Rattle.office.specs.DefectLines.{before, mark_as, mark_in, line_in, no_mark};
ghost use Rattle.office.specs.Numbers.{number_in};
ghost use Rattle.std.specs.Option.{option_map};

use crate::number::read_number;
use defects::{Defect, Mark};
use std::fmt;

// A line of a defect file that is neither blank, nor a comment, nor a mark.
#[derive(Clone, Copy, PartialEq, Eq, Debug)]
pub struct NoMark;

impl fmt::Display for NoMark {
    ghost output = { λ _. Some no_mark };

    fn fmt<W: fmt::Write>(&self, f: &mut fmt::Formatter<W>) -> fmt::Result {
        f.write_str("is no mark: write a page number and worn or lost, as `3 worn`")
    }
}

// The mark of a defect on the page that digits write.
fn mark_as(defect: Defect, digits: &[u8]) -> Option<Mark>
    ensures { result ≡ mark_as defect (number_in digits.now) }
{
    read_number(digits).map(|page| Mark { page, defect })
}

// What stands before a suffix.
fn front<'a>(line: &'a [u8], suffix: &[u8]) -> Option<&'a [u8]>
    ensures { option_map (λ x. x.now) result ≡ before suffix.now line.now }
{
    line.strip_suffix(suffix)
}

// Reads `PAGE worn` or `PAGE lost`.
fn mark_in(line: &[u8]) -> Option<Mark>
    ensures { result ≡ mark_in line.now }
{
    if let Some(digits) = front(line, b" worn") {
        return mark_as(Defect::Worn, digits);
    }
    mark_as(Defect::Lost, front(line, b" lost")?)
}

// Reads a line of a defect file: `PAGE worn` or `PAGE lost`, or no mark for a blank line or a comment after `#`.
pub fn read_defect_line(line: &[u8]) -> Result<Option<Mark>, NoMark>
    ensures { result ≡ line_in line.now }
{
    match line {
        [] | [b'#', ..] => Ok(None),
        _ => Ok(Some(mark_in(line).ok_or(NoMark)?)),
    }
}
