ghost use Rattle.std.specs.Prelude.{◌≡◌, ◌<◌};
ghost use Rattle.records.specs.Layout.{known, status_of};

use crate::malformed::Malformed;
use crate::read::all_zero;

// How far a record has come. Its byte is its number here.
#[derive(Clone, Copy, PartialEq, Eq)]
pub(crate) enum Status {
    Empty,
    Entered,
    Settled,
}

impl TryFrom<u8> for Status {
    type Error = Malformed;

    ghost try_from_gives = { λ byte r. r ≡ known byte };

    fn try_from(byte: u8) -> Result<Status, Malformed> {
        match byte {
            0 => Ok(Status::Empty),
            1 => Ok(Status::Entered),
            2 => Ok(Status::Settled),
            _ => Err(Malformed::Status(byte)),
        }
    }
}

// The status of a record that has its status byte at a place, once the record is found well formed.
// Inlined into each kind's decoder, where the place is a constant, and with it how many bytes are tested.
#[inline(always)]
pub(crate) fn status_at(bytes: &[u8; 32], at: usize) -> Result<Status, Malformed>
    requires { at < 32 }
    ensures { result ≡ status_of at bytes.now }
{
    let status = Status::try_from(bytes[at])?;
    if !all_zero(&bytes[at + 1..]) {
        return Err(Malformed::Padding);
    }
    if status == Status::Empty && !all_zero(bytes) {
        return Err(Malformed::Residue);
    }
    Ok(status)
}
