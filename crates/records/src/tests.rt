use crate::{Batch, BatchRecord, Fee, FeeRecord, Malformed};

#[test]
fn batch_there_and_back(rt: HostRuntime) {
    let entered = BatchRecord::Entered(Batch {
        number: 7,
        grocer: 258,
        coupons: 65536,
        face_value: 4294967301,
    });
    let bytes = b"\x07\0\0\0\x02\x01\0\0\0\0\x01\0\x05\0\0\0\x01\0\0\0\x01\0\0\0\0\0\0\0\0\0\0\0";
    assert_eq!(rt; entered.encode(), *bytes);
    assert_eq!(rt; BatchRecord::decode(bytes), Ok(entered));
}

#[test]
fn fee_there_and_back(rt: HostRuntime) {
    let settled = FeeRecord::Settled(Fee {
        batch: 258,
        amount: 65541,
    });
    let bytes = b"\x02\x01\0\0\x05\0\x01\0\0\0\0\0\x02\0\0\0\0\0\0\0\0\0\0\0\0\0\0\0\0\0\0\0";
    assert_eq!(rt; settled.encode(), *bytes);
    assert_eq!(rt; FeeRecord::decode(bytes), Ok(settled));
}

#[test]
fn malformed(rt: HostRuntime) {
    let mut bytes = [0; 32];
    assert_eq!(rt; FeeRecord::decode(&bytes), Ok(FeeRecord::Empty));
    bytes[0] = 9;
    assert_eq!(rt; FeeRecord::decode(&bytes), Err(Malformed::Residue));
    bytes[31] = 1;
    assert_eq!(rt; FeeRecord::decode(&bytes), Err(Malformed::Padding));
    bytes[12] = 3;
    assert_eq!(rt; FeeRecord::decode(&bytes), Err(Malformed::Status(3)));
}
