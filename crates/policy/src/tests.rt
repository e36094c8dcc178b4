use crate::frames::FrameCount;
use std::test::Fail;

// The number of a refused frame count, or 0.
fn refused(number: u32) -> u8 {
    match FrameCount::new(number) {
        Ok(_) => 0,
        Err(refusal) => refusal.number(),
    }
}

#[test]
fn frame_counts(rt: HostRuntime) -> Result<(), Fail> {
    assert_eq!(rt; refused(3), 1);
    assert_eq!(rt; refused(65), 1);
    assert_eq!(rt; FrameCount::new(4)?.value(), 4);
    assert_eq!(rt; FrameCount::new(64)?.value(), 64);
    Ok(())
}
