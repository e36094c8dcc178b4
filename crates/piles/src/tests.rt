use crate::work::work_pile;
use defects::{Defect, DefectList};
use device::Device;
use ends::{Archive, Memory};
use layers::{Join, Window};
use page::{Origin, Refusal, State};
use std::test::Fail;

#[test]
fn odd_memory_has_one_page(rt: HostRuntime) {
    let mut bytes = [7u8; 1023];
    let mut memory = Memory::new(&mut bytes);
    assert_eq!(rt; memory.count(), 1);
    assert_eq!(rt; memory.state(1), Err(Refusal::NoSuchPage));
    assert_eq!(rt; memory.write(0, &[9; 512]), Ok(()));
    assert_eq!(rt; memory.write(1, &[9; 512]), Err(Refusal::NoSuchPage));
    let back = memory.into_bytes();
    assert!(rt; back.len() == 1023);
    assert_eq!(rt; back[511], 9);
    assert_eq!(rt; back[512], 7);
}

#[test]
fn window_shows_a_lost_page(rt: HostRuntime) {
    let mut bytes = [1u8; 1536];
    let mut list = DefectList::new(Memory::new(&mut bytes));
    assert_eq!(rt; list.mark(1, Defect::Lost), Ok(()));
    assert_eq!(rt; list.mark(3, Defect::Lost), Err(Refusal::NoSuchPage));
    let mut window = Window::new(list, 1, 5);
    assert_eq!(rt; window.count(), 2);
    let mut buffer = [5u8; 512];
    let lost = Refusal::LostPage(Origin { page: 1, depth: 1 });
    assert_eq!(rt; window.read(0, &mut buffer), Err(lost));
    assert_eq!(rt; lost.number(), 3);
    assert_eq!(rt; buffer[0], 5);
    assert_eq!(rt; window.read(1, &mut buffer), Ok(()));
    assert_eq!(rt; window.read(2, &mut buffer), Err(Refusal::NoSuchPage));
}

#[test]
fn the_worse_mark_wins(rt: HostRuntime) {
    let bytes = [1u8; 1024];
    let mut below = DefectList::new(Archive::new(&bytes));
    assert_eq!(rt; below.mark(1, Defect::Lost), Ok(()));
    let mut list = DefectList::new(below);
    assert_eq!(rt; list.mark(0, Defect::Worn), Ok(()));
    assert_eq!(rt; list.mark(1, Defect::Worn), Ok(()));
    assert_eq!(rt;
        list.state(0),
        Ok(State::Worn(Origin { page: 0, depth: 0 }))
    );
    assert_eq!(rt;
        list.state(1),
        Ok(State::Lost(Origin { page: 1, depth: 1 }))
    );
    assert_eq!(rt; list.mark(0, Defect::Lost), Ok(()));
    assert_eq!(rt; list.mark(0, Defect::Worn), Ok(()));
    assert_eq!(rt;
        list.state(0),
        Ok(State::Lost(Origin { page: 0, depth: 0 }))
    );
}

#[test]
fn sixteen_marks_fill_a_list(rt: HostRuntime) {
    let bytes = [0u8; 9216];
    let mut list = DefectList::new(Archive::new(&bytes));
    for page in 0..16 {
        assert_eq!(rt; list.mark(page, Defect::Worn), Ok(()));
    }
    assert_eq!(rt; list.mark(16, Defect::Lost), Err(Refusal::NoPlace));
    assert_eq!(rt; list.mark(15, Defect::Lost), Ok(()));
}

#[test]
fn a_depth_stays_at_255(rt: HostRuntime) {
    let mut origin = Origin::here(7);
    for _ in 0..254 {
        origin = origin.deeper();
    }
    assert_eq!(rt; origin.depth, 254);
    assert_eq!(rt; origin.deeper().depth, 255);
    assert_eq!(rt; origin.deeper().deeper().depth, 255);
}

#[test]
fn a_pile_is_worked(rt: HostRuntime) {
    let mut bytes = [1u8; 1536];
    let last = [2u8; 512];
    let mut list = DefectList::new(Memory::new(&mut bytes));
    assert_eq!(rt; list.mark(2, Defect::Lost), Ok(()));
    let mut pile = Window::new(Join::new(list, Archive::new(&last)), 1, 9);
    assert_eq!(rt; pile.count(), 3);
    let mut buffer = [0u8; 512];
    assert_eq!(rt;
        work_pile(&mut pile, 0, &[8; 512], 0, &mut buffer),
        (Ok(()), Ok(()))
    );
    assert_eq!(rt; buffer[3], 8);
    let lost = Refusal::LostPage(Origin { page: 2, depth: 2 });
    assert_eq!(rt;
        work_pile(&mut pile, 1, &[8; 512], 2, &mut buffer),
        (Err(lost), Ok(()))
    );
    assert_eq!(rt; buffer[3], 2);
    let worn = Refusal::WornPage(Origin { page: 0, depth: 2 });
    assert_eq!(rt;
        work_pile(&mut pile, 2, &[8; 512], 3, &mut buffer),
        (Err(worn), Err(Refusal::NoSuchPage))
    );
}

#[test]
fn a_refusal_is_a_sentence(rt: HostRuntime) -> Result<(), Fail> {
    let lost = Refusal::LostPage(Origin { page: 2, depth: 1 });
    let text = format!(in rt.alloc(); "{lost}")?;
    assert_eq!(rt;
        text.as_str(),
        "refused 3: the page is lost and can be neither read nor written (origin page 2, depth 1)"
    );
    Ok(())
}
