ghost use Rattle.std.specs.Prelude.{◌≡◌, ◌<◌, ◌≤◌, min, map, length, take, IfSome};
ghost use Rattle.std.specs.List.{slice_get};
ghost use Rattle.recency.specs.Recent.{place_of, Nearest};
ghost use Rattle.recency.specs.Calls.{live, room, DidPut, DidTake, DidMove};

use crate::keyed::Keyed;
use crate::place::place_of;
use page::Refusal;

// The records of a slice below a length, the most recent at the head. What the slice holds from the
// length on is free in value: it is all that the contracts below leave open. The rules ask for a list over
// the slice of a caller, so a length stands beside it.
#[derive(Drop)]
pub struct Recency<'a, T: Keyed> {
    records: &'a mut [T],
    len: usize,
}

// A record is copied in and out, so that every place of the slice always holds one. A call that
// alters the list says that it still stands over the same slice, so that whoever lent the slice
// knows what it holds afterwards. A refused call alters nothing.
impl<'a, T: Keyed + Copy> Recency<'a, T> {
    // The list of the records below a length, which is cut to the slice's.
    pub fn new(records: &'a mut [T], len: usize) -> Recency<'a, T>
        ensures live { live result ≡ take len records.old }
        ensures slice { result.records.now ≡ records.old }
        ensures len { result.len ≡ min len (length records.old) }
        ensures same { result.records.ghost_name ≡ records.entry.ghost_name }
    {
        let len = len.min(records.len());
        Recency { records, len }
    }

    // How many records the list has, and no more than the slice has places.
    pub fn len(&self) -> usize
        ensures value { result ≡ length (live self.now) }
        ensures within { result ≤ room self.now }
        ensures front { take result self.now.records.now ≡ live self.now }
    {
        self.len.min(self.records.len())
    }

    // The place of a page nearest the head.
    pub fn find(&self, page: u32) -> Option<usize>
        ensures value { result ≡ place_of page (map T.Keyed.key (live self.now)) }
        ensures nearest { Nearest page (map T.Keyed.key (live self.now)) result }
        ensures within { IfSome result (λ i. i < length (live self.now)) }
    {
        let len = self.len();
        place_of(&self.records[0..len], page)
    }

    // The record at a place.
    pub fn get(&self, place: usize) -> Option<T>
        ensures { result ≡ slice_get (live self.now) place }
    {
        let len = self.len();
        self.records[0..len].get(place).copied()
    }

    // Puts a record at the head. It asks only for a free place: the page may be in the list already.
    pub fn put(&mut self, record: T) -> Result<(), Refusal>
        ensures did { DidPut self.old «record» result self.new }
        ensures same { self.new.records.ghost_name ≡ self.old.records.ghost_name }
    {
        let len = self.len();
        if len >= self.records.len() {
            return Err(Refusal::NoPlace);
        }
        self.records[len] = record;
        self.records[0..len + 1].rotate_right(1);
        self.len = len + 1;
        Ok(())
    }

    // Takes out the record at a place.
    pub fn take(&mut self, place: usize) -> Result<T, Refusal>
        ensures did { DidTake self.old place result self.new }
        ensures same { self.new.records.ghost_name ≡ self.old.records.ghost_name }
    {
        let len = self.len();
        if place >= len {
            return Err(Refusal::PastLength);
        }
        let record = self.records[place];
        self.records[place..len].rotate_left(1);
        self.len = len - 1;
        Ok(record)
    }

    // Moves the record at a place to the head.
    pub fn move_to_head(&mut self, place: usize) -> Result<(), Refusal>
        ensures did { DidMove self.old place result self.new }
        ensures same { self.new.records.ghost_name ≡ self.old.records.ghost_name }
    {
        if place >= self.len() {
            return Err(Refusal::PastLength);
        }
        self.records[0..place + 1].rotate_right(1);
        Ok(())
    }
}
