use page::Refusal;
use records::Malformed;

// Why a batch and its fee were not settled: a page was refused; a record is malformed; there is no
// batch, or no fee, that is entered and not settled; the fee is of another batch; or the fee is above
// the value.
#[derive(Clone, Copy, PartialEq, Eq, Debug)]
pub enum Fault {
    Refused(u32, Refusal),
    Malformed(u32, Malformed),
    NoBatch,
    NoFee,
    SettledBatch,
    SettledFee,
    OtherBatch(u32),
    FeeAboveValue,
}
