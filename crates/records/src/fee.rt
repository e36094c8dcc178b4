ghost use Rattle.records.specs.Kinds.{fee_fields, fee_in, FeeFits};
ghost use Rattle.records.specs.KindLaws.{fee_laws};

use crate::RECORD;
use crate::read::bytes_at;
use crate::record::{Fields, Record};

// The fee of a batch, in cents.
#[derive(Clone, Copy, PartialEq, Eq, Debug)]
pub struct Fee {
    pub batch: u32,
    pub amount: u64,
}

// A place of the fee book.
pub type FeeRecord = Record<Fee>;

impl Fields for Fee {
    const STATUS: usize = 12;

    ghost STATUS = { 12 };

    ghost Fits = { FeeFits };

    ghost written = { fee_fields };

    ghost read = { fee_in };

    ghost laws = { fee_laws };

    fn to_bytes(self) -> [u8; 32] {
        let mut bytes = [0; RECORD];
        bytes[0..4].copy_from_slice(&self.batch.to_le_bytes());
        bytes[4..12].copy_from_slice(&self.amount.to_le_bytes());
        bytes
    }

    fn from_bytes(bytes: &[u8; 32]) -> Fee {
        Fee {
            batch: u32::from_le_bytes(bytes_at(bytes, 0)),
            amount: u64::from_le_bytes(bytes_at(bytes, 4)),
        }
    }
}
