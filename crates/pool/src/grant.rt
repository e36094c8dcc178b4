ghost use Rattle.std.specs.Prelude.{◌≡◌, true};
ghost use Rattle.pool.specs.Did.{given};

use crate::purpose::{Purpose, ToRead, ToUpdate};
use std::marker::PhantomData;

// A grant for a page, given by a fix and spent by an unfix. It is not to be let go before: the rules
// ask for a drop that only an unfix can meet, so the grant has the flag.
pub struct Grant<K> {
    pub(crate) mark: u32,
    pub(crate) page: u32,
    pub(crate) spent: bool,
    pub(crate) purpose: PhantomData<K>,
}

// The two types of grant.
pub type ReadGrant = Grant<ToRead>;

pub type UpdateGrant = Grant<ToUpdate>;

impl<K> Drop for Grant<K> {
    fn drop(self)
        requires { self.spent ≡ true }
    {
        let Grant {
            mark: _,
            page: _,
            spent: _,
            purpose: _,
        } = self;
    }
}

impl<K: Purpose> Grant<K> {
    // A grant that is not spent.
    pub(crate) fn new(mark: u32, page: u32) -> Grant<K>
        ensures { result ≡ given mark page }
    {
        Grant {
            mark,
            page,
            spent: false,
            purpose: PhantomData,
        }
    }

    // The mark of the pool that gave the grant.
    pub fn mark(&self) -> u32
        ensures { result ≡ self.now.mark }
    {
        self.mark
    }

    // The page that it is for.
    pub fn page(&self) -> u32
        ensures { result ≡ self.now.page }
    {
        self.page
    }
}
