ghost use Rattle.std.specs.Prelude.{◌≡◌, ◌<◌, ◌≤◌, ◌∷◌, [], map, length, take};
ghost use Rattle.recency.specs.Recent.{member, found, less, moved, renewed};

use crate::keyed::Keyed;
use crate::list::Recency;
use crate::place::place_of;
use std::marker::Model;

// A list of at most N records in an array of its own, from its head. Contracts see the list. Each call
// that alters its order lends the array to a recency list, which wants the free places too: an ArrayVec has
// none to lend.
#[derive(Drop)]
pub struct Table<T, const N: usize> {
    records: [T; N],
    len: usize,
}

impl<T, const N: usize> Model for Table<T, N> {
    ghost use Rattle.std.specs.Prelude.{◌≡◌, ◌≤◌, List, length, take};
    ghost use Rattle.std.specs.Coded.{coded_list};

    ghost Value = { List T };

    ghost coded = { coded_list T.code };

    ghost view = { λ t. take t.len t.records };

    ghost invariant = { λ t. (t.len ≤ N) × (length t.records ≡ N) };
}

impl<T: Keyed + Copy, const N: usize> Table<T, N> {
    // An empty table; the record fills the places that are free.
    pub fn new(free: T) -> Table<T, N>
        ensures { result ≡ [] }
    {
        Table {
            records: [free; N],
            len: 0,
        }
    }

    // The records, from the head.
    pub fn as_slice(&self) -> &[T]
        ensures { result.now ≡ self.now }
    {
        &self.records[..self.len]
    }

    pub fn len(&self) -> usize
        ensures { result ≡ length self.now }
    {
        self.as_slice().len()
    }

    // Whether a page has a record.
    pub fn contains(&self, page: u32) -> bool
        ensures { result ≡ member page (map T.Keyed.key self.now) }
    {
        place_of(self.as_slice(), page).is_some()
    }

    // The record of a page.
    pub fn find(&self, page: u32) -> Option<T>
        ensures { result ≡ found T.Keyed.key page self.now }
    {
        let place = place_of(self.as_slice(), page)?;
        Some(self.records[place])
    }

    pub fn clear(&mut self)
        ensures { self.new ≡ [] }
    {
        self.len = 0;
    }

    // Keeps the records nearest the head, up to a number.
    pub fn truncate(&mut self, most: usize)
        ensures { self.new ≡ take most self.old }
    {
        self.len = self.len.min(most);
    }

    // Puts a record at the head. Where all places are taken, the last record drops out.
    pub fn push(&mut self, record: T)
        ensures { self.new ≡ take N («record» ∷ self.old) }
    {
        self.len = put_first(&mut self.records, self.len, record);
    }

    // Takes the record of a page out, and answers it.
    pub fn remove(&mut self, page: u32) -> Option<T>
        ensures answer { result ≡ found T.Keyed.key page self.old }
        ensures after { self.new ≡ less T.Keyed.key page self.old }
    {
        let (record, len) = take_out(&mut self.records, self.len, page);
        self.len = len;
        record
    }

    // Moves the record of a page to the head.
    pub fn raise(&mut self, page: u32)
        ensures { self.new ≡ moved T.Keyed.key page self.old }
    {
        move_first(&mut self.records, self.len, page);
    }

    // Puts a record in the place of the one that its page has.
    pub fn replace(&mut self, record: T)
        ensures { self.new ≡ renewed T.Keyed.key (λ _. «record») (T.Keyed.key «record») self.old }
    {
        if let Some(place) = place_of(self.as_slice(), record.page()) {
            self.records[place] = record;
        }
    }
}

// The three functions below take the array and the length: a method would use the whole table, whose list
// does not stand while its array is lent.

// Puts a record at the head of the list of the records below a length, and answers the new length. Where
// all places are taken, the last record drops out.
fn put_first<T: Keyed + Copy>(records: &mut [T], len: usize, record: T) -> usize
    ensures after { take result records.new ≡ take (length records.old) («record» ∷ take len records.old) }
    ensures within { result ≤ length records.old }
{
    let kept = len.min(records.len().saturating_sub(1));
    let mut list = Recency::new(records, kept);
    let _ = list.put(record);
    list.len()
}

// Takes the record of a page out of that list, and answers it, if there was one, and the new length.
fn take_out<T: Keyed + Copy>(records: &mut [T], len: usize, page: u32) -> (Option<T>, usize)
    ensures answer { result.0 ≡ found T.Keyed.key page (take len records.old) }
    ensures after { take result.1 records.new ≡ less T.Keyed.key page (take len records.old) }
    ensures within { result.1 ≤ length records.old }
{
    let mut list = Recency::new(records, len);
    let Some(place) = list.find(page) else {
        return (None, list.len());
    };
    let record = list.take(place).ok();
    (record, list.len())
}

// Moves the record of a page to the head of that list, if it has one.
fn move_first<T: Keyed + Copy>(records: &mut [T], len: usize, page: u32)
    ensures { take len records.new ≡ moved T.Keyed.key page (take len records.old) }
{
    let mut list = Recency::new(records, len);
    let Some(place) = list.find(page) else {
        return;
    };
    let _ = list.move_to_head(place);
}
