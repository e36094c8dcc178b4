ghost use Rattle.std.specs.Prelude.{◌≡◌, ℕ, ◌-◌, List, ◌++◌, replicate, IfOk, Ok};
ghost use Rattle.records.specs.Form.{FieldLaws};
ghost use Rattle.records.specs.Layout.{fields_of, record_bytes, record_of, with_status};

use crate::RECORD;
use crate::malformed::Malformed;
use crate::status::{Status, status_at};

// A place of a book whose records have the fields T.
#[derive(Clone, Copy, PartialEq, Eq, Debug)]
pub enum Record<T> {
    Empty,
    Entered(T),
    Settled(T),
}

// The fields of a kind of record. They stand in its first bytes, and the status after them.
pub trait Fields: Copy {
    // Where the status stands.
    const STATUS: usize;

    ghost STATUS: { ℕ };

    // What fits the widths of the fields.
    ghost Fits: { Self → Type 0 };

    // The bytes of the fields, and the fields that the bytes of a record give.
    ghost written: { Self → List ℕ };

    ghost read: { List ℕ → Self };

    // The fields in 32 bytes, with zeros after them.
    fn to_bytes(self) -> [u8; 32]
        ensures bytes { result ≡ written self ++ replicate (32 - STATUS) 0 }
        ensures fits { Fits self };

    // The fields in the bytes of a record.
    fn from_bytes(bytes: &[u8; 32]) -> Self
        ensures { result ≡ read bytes.now };

    ghost laws: { FieldLaws STATUS Fits written read };
}

// The fields and the byte of a status in 32 bytes.
fn put<T: Fields>(fields: T, status: u8) -> [u8; 32]
    ensures bytes { result ≡ with_status T.STATUS T.written status fields }
    ensures fits { T.Fits fields }
{
    let mut bytes = fields.to_bytes();
    bytes[T::STATUS] = status;
    bytes
}

impl<T: Fields> Record<T> {
    // The fields, where the place is not empty.
    pub fn fields(self) -> Option<T>
        ensures { result ≡ fields_of self }
    {
        match self {
            Record::Empty => None,
            Record::Entered(fields) | Record::Settled(fields) => Some(fields),
        }
    }

    // The 32 bytes of the record.
    pub fn encode(&self) -> [u8; 32]
        ensures bytes { result ≡ record_bytes T.STATUS T.written self.now }
        ensures back { record_of T.STATUS T.read result ≡ Ok self.now }
    {
        match *self {
            Record::Empty => [0; RECORD],
            Record::Entered(fields) => put(fields, Status::Entered as u8),
            Record::Settled(fields) => put(fields, Status::Settled as u8),
        }
    }

    // The record in 32 bytes.
    #[inline(always)]
    pub fn decode(bytes: &[u8; 32]) -> Result<Record<T>, Malformed>
        ensures value { result ≡ record_of T.STATUS T.read bytes.now }
        ensures only { IfOk result (λ x. record_bytes T.STATUS T.written x ≡ bytes.now) }
    {
        match status_at(bytes, T::STATUS)? {
            Status::Empty => Ok(Record::Empty),
            Status::Entered => Ok(Record::Entered(T::from_bytes(bytes))),
            Status::Settled => Ok(Record::Settled(T::from_bytes(bytes))),
        }
    }
}
