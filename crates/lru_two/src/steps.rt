// The steps that an admission and a hit are made of.
ghost use Rattle.std.specs.Prelude.{◌≡◌, ◌<◌, false, nat_le};
ghost use Rattle.policy.specs.Sets.{accepts};
ghost use Rattle.blocks.specs.Blocks.{earlier};
ghost use Rattle.lru_two.specs.Model.{resident, size, touched, forgotten, gone, come};
ghost use Rattle.lru_two.specs.Of.{model};

use crate::lru_two::LruTwo;
use blocks::Block;

impl LruTwo {
    // Whether a page is resident.
    pub(crate) fn has(&self, page: u32) -> bool
        ensures { result ≡ resident (model self.now) page }
    {
        self.blocks.contains(page)
    }

    // Whether there are as many resident pages as frames.
    fn is_full(&self) -> bool
        ensures { result ≡ nat_le (model self.now).bound (size (model self.now)) }
    {
        self.blocks.len() >= self.frames.value() as usize
    }

    // Whether a page may come in and the leaving one, if any, go out. The line stands in two_q too,
    // over its own `has` and `is_full`.
    pub(crate) fn takes(&self, page: u32, leaving: Option<u32>) -> bool
        ensures { result ≡ accepts (resident (model self.now)) (size (model self.now)) (model self.now).bound page leaving }
    {
        !self.has(page) && leaving.map_or(!self.is_full(), |gone| self.has(gone))
    }

    // A hit of a page, if it is resident, and whether it is.
    pub(crate) fn touch(&mut self, page: u32, t: u32) -> bool
        ensures answer { result ≡ resident (model self.old) page }
        ensures after { model self.new ≡ touched (model self.old) page t }
        ensures refused { result ≡ false → self.new ≡ self.old }
    {
        let Some(block) = self.blocks.find(page) else {
            return false;
        };
        self.blocks.replace(block.refreshed(t, self.crp));
        true
    }

    // Takes the retained block of a page out, and answers its HIST1, or 0 where there is none.
    pub(crate) fn forget(&mut self, page: u32) -> u32
        ensures answer { result ≡ earlier page (model self.old).retained }
        ensures after { model self.new ≡ forgotten (model self.old) page }
    {
        self.retained.remove(page).map_or(0, |block| block.hist1)
    }

    // The leaving page, if any, goes out, and its block is retained.
    pub(crate) fn let_out(&mut self, leaving: Option<u32>)
        ensures { model self.new ≡ gone (model self.old) leaving }
    {
        let Some(page) = leaving else {
            return;
        };
        let most = self.frames.value() as usize / 2;
        let Some(block) = self.blocks.remove(page) else {
            return;
        };
        self.retained.push(block);
        self.retained.truncate(most);
    }

    // A page comes in.
    pub(crate) fn let_in(&mut self, page: u32, hist2: u32, t: u32)
        requires room { size (model self.old) < (model self.old).bound }
        requires absent { resident (model self.old) page ≡ false }
        ensures { model self.new ≡ come (model self.old) hist2 page t }
    {
        let block = Block {
            page,
            hist1: t,
            hist2,
            last: t,
        };
        self.blocks.push(block);
    }
}
