use crate::Cached;
use defects::{Defect, DefectList};
use device::{Device, write_then_read};
use ends::Memory;
use layers::Window;
use lru_two::LruTwo;
use page::{Origin, Refusal, State};
use policy::{FrameCount, Policy};
use pool::{Pool, ToRead};
use std::test::Fail;
use two_q::TwoQ;

// Writes and reads across the renewal: the bytes shown are those last written, and the close leaves
// them below.
#[test]
fn the_last_time_is_passed(rt: HostRuntime) -> Result<(), Fail> {
    let mut bytes = [7u8; 4096];
    let policy = TwoQ::new(FrameCount::new(4)?);
    let mut cached = Cached::open_at(Memory::new(&mut bytes), policy, 9, u32::MAX - 1);
    let mut buffer = [0u8; 512];
    let first = cached.write(0, &[1; 512]);
    let before = cached.report();
    let second = cached.write(1, &[2; 512]);
    let after = cached.report();
    let third = cached.read(0, &mut buffer);
    let again = cached.report();
    let absent = cached.read(8, &mut buffer);
    let memory = cached.close();
    let back = memory.into_bytes();
    assert_eq!(rt; first, Ok(()));
    assert_eq!(rt; before, (0, 1));
    assert_eq!(rt; second, Ok(()));
    assert_eq!(rt; after, (0, 1));
    assert_eq!(rt; third, Ok(()));
    assert_eq!(rt; again, (0, 2));
    assert_eq!(rt; absent, Err(Refusal::NoSuchPage));
    assert_eq!(rt; buffer[511], 1);
    assert_eq!(rt; back.get(0).copied(), Some(1));
    assert_eq!(rt; back.get(512).copied(), Some(2));
    assert_eq!(rt; back.get(1024).copied(), Some(7));
    Ok(())
}

// A refusal at the last time alters nothing: nothing is renewed for it.
#[test]
fn a_refusal_renews_nothing(rt: HostRuntime) -> Result<(), Fail> {
    let mut bytes = [7u8; 1024];
    let policy = TwoQ::new(FrameCount::new(4)?);
    let mut cached = Cached::open_at(Memory::new(&mut bytes), policy, 9, u32::MAX - 1);
    let mut buffer = [5u8; 512];
    let read = cached.read(1, &mut buffer);
    let full = cached.pool().is_full();
    let absent = cached.write(2, &[3; 512]);
    let still = cached.pool().is_full();
    let report = cached.report();
    let held = cached.policy().a1in().len();
    let memory = cached.close();
    let back = memory.into_bytes();
    assert_eq!(rt; read, Ok(()));
    assert_eq!(rt; buffer[0], 7);
    assert!(rt; full);
    assert_eq!(rt; absent, Err(Refusal::NoSuchPage));
    assert!(rt; still);
    assert_eq!(rt; report, (0, 1));
    assert_eq!(rt; held, 1);
    assert_eq!(rt; back.get(1023).copied(), Some(7));
    Ok(())
}

// A window over a cached device over a defect list over a memory: each counts one layer of an origin.
#[test]
fn a_pile_with_a_cached_device(rt: HostRuntime) -> Result<(), Fail> {
    let mut bytes = [7u8; 4096];
    let mut list = DefectList::new(Memory::new(&mut bytes));
    let lost = list.mark(2, Defect::Lost);
    let worn = list.mark(3, Defect::Worn);
    let policy = TwoQ::new(FrameCount::new(4)?);
    let mut pile = Window::new(Cached::open(list, policy, 9), 1, 9);
    let count = pile.count();
    let state = pile.state(2);
    let mut buffer = [0u8; 512];
    let read_lost = pile.read(1, &mut buffer);
    let write_worn = pile.write(2, &[3; 512]);
    let read_worn = pile.read(2, &mut buffer);
    let worn_byte = buffer[0];
    let both = write_then_read(&mut pile, 3, &[4; 512], 3, &mut buffer);
    let cached = pile.into_below();
    let report = cached.report();
    let memory = cached.close().into_below();
    let back = memory.into_bytes();
    assert_eq!(rt; lost, Ok(()));
    assert_eq!(rt; worn, Ok(()));
    assert_eq!(rt; count, 7);
    assert_eq!(rt; state, Ok(State::Worn(Origin { page: 3, depth: 2 })));
    assert_eq!(rt;
        read_lost,
        Err(Refusal::LostPage(Origin { page: 2, depth: 2 }))
    );
    assert_eq!(rt;
        write_worn,
        Err(Refusal::WornPage(Origin { page: 3, depth: 2 }))
    );
    assert_eq!(rt; read_worn, Ok(()));
    assert_eq!(rt; worn_byte, 7);
    assert_eq!(rt; both, (Ok(()), Ok(())));
    assert_eq!(rt; buffer[9], 4);
    assert_eq!(rt; report, (1, 2));
    assert_eq!(rt; back.get(2048).copied(), Some(4));
    assert_eq!(rt; back.get(2047).copied(), Some(7));
    Ok(())
}

// A cached device over another, under two policies: both are closed, the upper one first.
#[test]
fn one_over_another(rt: HostRuntime) -> Result<(), Fail> {
    let mut bytes = [7u8; 2048];
    let mut list = DefectList::new(Memory::new(&mut bytes));
    let worn = list.mark(1, Defect::Worn);
    let frames = FrameCount::new(4)?;
    let below = Cached::open_at(list, LruTwo::new(frames, 2), 1, u32::MAX);
    let mut cached = Cached::open_at(below, TwoQ::new(frames), 2, u32::MAX);
    let mut buffer = [0u8; 512];
    let write_worn = cached.write(1, &[3; 512]);
    let both = write_then_read(&mut cached, 2, &[4; 512], 2, &mut buffer);
    let report = cached.report();
    let below = cached.close();
    let report_below = below.report();
    let back = below.close().into_below().into_bytes();
    assert_eq!(rt; worn, Ok(()));
    assert_eq!(rt;
        write_worn,
        Err(Refusal::WornPage(Origin { page: 1, depth: 2 }))
    );
    assert_eq!(rt; both, (Ok(()), Ok(())));
    assert_eq!(rt; buffer[511], 4);
    assert_eq!(rt; report, (1, 1));
    assert_eq!(rt; report_below, (1, 1));
    assert_eq!(rt; back.get(1023).copied(), Some(7));
    assert_eq!(rt; back.get(1024).copied(), Some(4));
    Ok(())
}

// Takes grants out for page 0, one within another, up to a number, and gives them all back. Answers the
// refusal that was met, if any, and how many were left to take.
fn hold<D: Device, P: Policy>(pool: &mut Pool<D, P>, left: u32) -> Option<(u32, Refusal)> {
    if left == 0 {
        return None;
    }
    match pool.fix::<ToRead>(0) {
        Ok(grant) => {
            let met = hold(pool, left - 1);
            let _ = pool.unfix(grant);
            met
        }
        Err(refusal) => Some((left, refusal)),
    }
}

#[test]
fn the_256th_grant_on_a_page_is_refused(rt: HostRuntime) -> Result<(), Fail> {
    let mut bytes = [7u8; 512];
    let policy = TwoQ::new(FrameCount::new(4)?);
    let mut pool = Pool::open(Memory::new(&mut bytes), policy, 1);
    let met = hold(&mut pool, 300);
    let again = hold(&mut pool, 255);
    let report = pool.report();
    let _ = pool.close();
    assert_eq!(rt; met, Some((45, Refusal::PageFull)));
    assert_eq!(rt; Refusal::PageFull.number(), 6);
    assert_eq!(rt; again, None);
    assert_eq!(rt; report, (509, 1));
    Ok(())
}
