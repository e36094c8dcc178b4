ghost use Rattle.records.specs.Kinds.{batch_fields, batch_in, BatchFits};
ghost use Rattle.records.specs.KindLaws.{batch_laws};

use crate::RECORD;
use crate::read::bytes_at;
use crate::record::{Fields, Record};

// A grocer's batch of coupons, with its face value in cents.
#[derive(Clone, Copy, PartialEq, Eq, Debug)]
pub struct Batch {
    pub number: u32,
    pub grocer: u32,
    pub coupons: u32,
    pub face_value: u64,
}

// A place of the batch book.
pub type BatchRecord = Record<Batch>;

impl Fields for Batch {
    const STATUS: usize = 20;

    ghost STATUS = { 20 };

    ghost Fits = { BatchFits };

    ghost written = { batch_fields };

    ghost read = { batch_in };

    ghost laws = { batch_laws };

    fn to_bytes(self) -> [u8; 32] {
        let mut bytes = [0; RECORD];
        bytes[0..4].copy_from_slice(&self.number.to_le_bytes());
        bytes[4..8].copy_from_slice(&self.grocer.to_le_bytes());
        bytes[8..12].copy_from_slice(&self.coupons.to_le_bytes());
        bytes[12..20].copy_from_slice(&self.face_value.to_le_bytes());
        bytes
    }

    fn from_bytes(bytes: &[u8; 32]) -> Batch {
        Batch {
            number: u32::from_le_bytes(bytes_at(bytes, 0)),
            grocer: u32::from_le_bytes(bytes_at(bytes, 4)),
            coupons: u32::from_le_bytes(bytes_at(bytes, 8)),
            face_value: u64::from_le_bytes(bytes_at(bytes, 12)),
        }
    }
}
