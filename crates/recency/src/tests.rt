use crate::keyed::Keyed;
use crate::list::Recency;
use crate::table::Table;
use page::Refusal;
use std::test::Fail;

// A record with a page number beside what else it has.
#[derive(Clone, Copy)]
struct Block {
    page: u32,
    last: u32,
}

impl Keyed for Block {
    ghost key = { λ b. b.page };

    fn page(&self) -> u32 {
        self.page
    }
}

// The number of a refusal, or 0.
fn number<T: Drop>(answer: Result<T, Refusal>) -> u8 {
    match answer {
        Ok(_) => 0,
        Err(refusal) => refusal.number(),
    }
}

#[test]
fn a_duplicate_is_found_nearest_the_head(rt: HostRuntime) {
    let mut pages = [7, 5, 7, 0];
    let mut list = Recency::new(&mut pages, 3);
    assert_eq!(rt; list.find(7), Some(0));
    assert_eq!(rt; number(list.put(5)), 0);
    assert_eq!(rt; list.find(5), Some(0));
    assert_eq!(rt; list.find(7), Some(1));
    assert_eq!(rt; list.find(9), None);
    assert_eq!(rt; pages, [5, 7, 5, 7]);
}

#[test]
fn a_full_list_takes_no_record(rt: HostRuntime) {
    let mut pages = [1, 2];
    let mut list = Recency::new(&mut pages, 2);
    assert_eq!(rt; number(list.put(3)), 10);
    assert_eq!(rt; list.len(), 2);
    assert_eq!(rt; pages, [1, 2]);
}

#[test]
fn a_place_past_the_length_is_refused(rt: HostRuntime) {
    let mut pages = [1, 2, 3];
    let mut list = Recency::new(&mut pages, 2);
    assert_eq!(rt; number(list.take(2)), 11);
    assert_eq!(rt; number(list.move_to_head(2)), 11);
    assert_eq!(rt; list.get(2), None);
    assert_eq!(rt; pages, [1, 2, 3]);
}

#[test]
fn the_others_keep_their_order(rt: HostRuntime) {
    let mut pages = [1, 2, 3, 4];
    let mut list = Recency::new(&mut pages, 9);
    assert_eq!(rt; list.len(), 4, "the length is cut to the slice's");
    assert_eq!(rt; number(list.move_to_head(2)), 0);
    assert_eq!(rt; list.get(0), Some(3));
    assert_eq!(rt; number(list.take(1)), 0);
    assert_eq!(rt; list.len(), 3);
    assert_eq!(rt; &pages[0..3], [3, 2, 4].as_slice());
}

#[test]
fn an_owner_lends_its_blocks(rt: HostRuntime) -> Result<(), Fail> {
    let mut blocks = [Block { page: 8, last: 1 }; 4];
    let mut list = Recency::new(&mut blocks, 1);
    assert_eq!(rt; number(list.put(Block { page: 6, last: 2 })), 0);
    assert_eq!(rt; number(list.move_to_head(1)), 0);
    assert_eq!(rt; number(list.move_to_head(2)), 11);
    assert_eq!(rt; list.take(1)?.page, 6);
    assert_eq!(rt; number(list.take(1)), 11);
    assert_eq!(rt; list.take(0)?.last, 1);
    Ok(())
}

#[test]
fn a_table_keeps_blocks(rt: HostRuntime) {
    let mut table: Table<Block, 2> = Table::new(Block { page: 0, last: 0 });
    table.push(Block { page: 8, last: 1 });
    table.push(Block { page: 6, last: 2 });
    table.raise(8);
    assert_eq!(rt; table.find(8).map(|block| block.last), Some(1));
    table.push(Block { page: 7, last: 3 });
    assert!(rt; !table.contains(6), "the last record drops out");
    table.replace(Block { page: 8, last: 4 });
    assert_eq!(rt; table.remove(8).map(|block| block.last), Some(4));
    assert_eq!(rt; table.len(), 1);
    table.truncate(0);
    assert!(rt; table.as_slice().is_empty());
    table.push(Block { page: 7, last: 5 });
    table.clear();
    assert_eq!(rt; table.len(), 0);
}
