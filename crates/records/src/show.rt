ghost use Rattle.std.specs.Prelude.{Some};
ghost use Rattle.records.specs.Sentence.{sentence};

use crate::malformed::Malformed;
use std::fmt;

impl fmt::Display for Malformed {
    ghost output = { λ m. Some (sentence m) };

    fn fmt<W: fmt::Write>(&self, f: &mut fmt::Formatter<W>) -> fmt::Result {
        match *self {
            Malformed::Status(status) => {
                write!(f, "the status byte is {status} and must be 0, 1 or 2")
            }
            Malformed::Padding => write!(f, "a byte after the status is not zero"),
            Malformed::Residue => write!(f, "an empty record has a byte that is not zero"),
        }
    }
}
