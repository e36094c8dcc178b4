use crate::run::run_two_q;
use crate::two_q::TwoQ;
use policy::{FrameCount, Outcome, Policy};
use std::test::Fail;

#[test]
fn the_figures(rt: HostRuntime) -> Result<(), Fail> {
    let mut policy = TwoQ::new(FrameCount::new(4)?);
    let mut outcomes = [Outcome::Hit; 10];
    let counts = run_two_q(&mut policy, &[1, 2, 3, 4, 5, 1, 6, 3], &mut outcomes);
    assert_eq!(rt; counts, (0, 8));
    assert_eq!(rt; policy.am(), [3, 1].as_slice());
    assert_eq!(rt; policy.a1in(), [6, 5].as_slice());
    assert_eq!(rt; policy.a1out(), [4, 2].as_slice());
    assert_eq!(rt; outcomes[3], Outcome::Fetch(None));
    assert_eq!(rt; outcomes[4], Outcome::Fetch(Some(1)));
    assert_eq!(rt; outcomes[7], Outcome::Fetch(Some(4)));
    let counts = run_two_q(&mut policy, &[1, 2, 3, 4, 5, 1, 6, 3, 2, 7], &mut outcomes);
    assert_eq!(rt; counts, (0, 10));
    assert_eq!(rt; policy.am(), [2, 3].as_slice());
    assert_eq!(rt; policy.a1in(), [7, 6].as_slice());
    assert_eq!(rt; policy.a1out(), [5, 4].as_slice());
    assert_eq!(rt; outcomes[9], Outcome::Fetch(Some(1)));
    Ok(())
}

#[test]
fn held_pages_are_not_chosen(rt: HostRuntime) -> Result<(), Fail> {
    let mut policy = TwoQ::new(FrameCount::new(4)?);
    let mut outcomes = [Outcome::Hit; 9];
    let _ = run_two_q(&mut policy, &[1, 2, 3, 4, 5, 1, 6, 3, 2], &mut outcomes);
    assert!(rt; policy.hit(1, 10) && policy.hit(3, 11) && policy.hit(2, 12));
    assert_eq!(rt; policy.choose(&[6], 13), Some(6));
    assert!(rt; policy.admit(7, Some(6), 13));
    assert_eq!(rt; policy.am(), [2, 3, 1].as_slice());
    assert_eq!(rt; policy.a1in(), [7].as_slice());
    assert_eq!(rt; policy.a1out(), [6, 5].as_slice());
    Ok(())
}

#[test]
fn a_string_ends_with_the_places(rt: HostRuntime) -> Result<(), Fail> {
    let mut policy = TwoQ::new(FrameCount::new(64)?);
    let mut outcomes = [Outcome::Hit; 3];
    assert_eq!(rt;
        run_two_q(&mut policy, &[9, 9, 8, 8, 7], &mut outcomes),
        (1, 2)
    );
    assert_eq!(rt; policy.a1in(), [8, 9].as_slice());
    Ok(())
}
