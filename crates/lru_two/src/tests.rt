use crate::lru_two::LruTwo;
use crate::run::run_lru_two;
use blocks::Block;
use policy::{FrameCount, Outcome, Policy};
use std::test::Fail;

#[test]
fn the_figures(rt: HostRuntime) -> Result<(), Fail> {
    let mut policy = LruTwo::new(FrameCount::new(4)?, 0);
    let mut outcomes = [Outcome::Hit; 7];
    let counts = run_lru_two(&mut policy, &[1, 2, 3, 4, 1, 5, 2], &mut outcomes);
    assert_eq!(rt; counts, (1, 6));
    assert_eq!(rt; outcomes[4], Outcome::Hit);
    assert_eq!(rt; outcomes[5], Outcome::Fetch(Some(2)));
    assert_eq!(rt; outcomes[6], Outcome::Fetch(Some(3)));
    let two = Block {
        page: 2,
        hist1: 7,
        hist2: 2,
        last: 7,
    };
    assert!(rt; policy.resident_blocks().len() == 4);
    assert_eq!(rt; policy.resident_blocks()[0], two);
    Ok(())
}

#[test]
fn within_the_period(rt: HostRuntime) -> Result<(), Fail> {
    let mut policy = LruTwo::new(FrameCount::new(4)?, 10);
    let mut outcomes = [Outcome::Hit; 5];
    let counts = run_lru_two(&mut policy, &[1, 2, 3, 4, 5], &mut outcomes);
    assert_eq!(rt; counts, (0, 5));
    assert_eq!(rt; outcomes[4], Outcome::Fetch(Some(1)));
    assert_eq!(rt; policy.choose(&[5, 3, 1], 6), Some(3));
    assert_eq!(rt; policy.choose(&[5, 3], 14), Some(3));
    assert_eq!(rt; policy.choose(&[1, 9], 6), None);
    Ok(())
}

#[test]
fn refusals_alter_nothing(rt: HostRuntime) -> Result<(), Fail> {
    let mut policy = LruTwo::new(FrameCount::new(4)?, 0);
    assert!(rt; policy.admit(7, None, 1));
    assert!(rt; !policy.hit(8, 2));
    assert!(rt; !policy.admit(7, None, 3));
    assert!(rt; !policy.admit(8, Some(9), 4));
    let seven = Block {
        page: 7,
        hist1: 1,
        hist2: 0,
        last: 1,
    };
    assert!(rt; policy.resident_blocks().len() == 1);
    assert_eq!(rt; policy.resident_blocks()[0], seven);
    assert!(rt; policy.retained().is_empty());
    Ok(())
}
