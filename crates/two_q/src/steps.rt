// The steps that an admission and a hit are made of.
ghost use Rattle.std.specs.Prelude.{◌≡◌, ◌<◌, false, nat_le};
ghost use Rattle.policy.specs.Sets.{member, accepts};
ghost use Rattle.two_q.specs.Model.{kin, kout, resident, size, touched, forgotten, gone, come};
ghost use Rattle.two_q.specs.Of.{model};

use crate::two_q::TwoQ;

impl TwoQ {
    // How long A1in may grow before its pages leave first: of the two lengths that the algorithm names.
    pub(crate) fn kin(&self) -> usize
        ensures { result ≡ kin (model self.now) }
    {
        self.frames.value() as usize / 4
    }

    // How many pages A1out remembers.
    pub(crate) fn kout(&self) -> usize
        ensures { result ≡ kout (model self.now) }
    {
        self.frames.value() as usize / 2
    }

    // Whether as many pages are resident as may be.
    fn is_full(&self) -> bool
        ensures { result ≡ nat_le (model self.now).bound (size (model self.now)) }
    {
        self.am.len() + self.a1in.len() >= self.frames.value() as usize
    }

    // Whether a page is resident.
    fn has(&self, page: u32) -> bool
        ensures { result ≡ resident (model self.now) page }
    {
        self.am.contains(page) || self.a1in.contains(page)
    }

    // Whether a page may come in and the leaving one, if any, go out. The line stands in lru_two too,
    // over its own `has` and `is_full`.
    pub(crate) fn takes(&self, page: u32, leaving: Option<u32>) -> bool
        ensures { result ≡ accepts (resident (model self.now)) (size (model self.now)) (model self.now).bound page leaving }
    {
        !self.has(page) && leaving.map_or(!self.is_full(), |gone| self.has(gone))
    }

    // Moves a page of Am to its head.
    pub(crate) fn touch(&mut self, page: u32)
        ensures { model self.new ≡ touched (model self.old) page }
    {
        self.am.raise(page);
    }

    // Takes a page out of A1out, and answers whether it was there.
    pub(crate) fn forget(&mut self, page: u32) -> bool
        ensures answer { result ≡ member page (model self.old).a1out }
        ensures after { model self.new ≡ forgotten (model self.old) page }
    {
        self.a1out.remove(page).is_some()
    }

    // The leaving page, if any, goes out; from A1in it goes to the head of A1out.
    pub(crate) fn let_out(&mut self, leaving: Option<u32>)
        ensures { model self.new ≡ gone (model self.old) leaving }
    {
        let Some(page) = leaving else {
            return;
        };
        let kout = self.kout();
        if self.am.remove(page).is_some() {
            return;
        }
        let _ = self.a1in.remove(page);
        self.a1out.push(page);
        self.a1out.truncate(kout);
    }

    // A page comes in: to the head of Am if it is known, else of A1in.
    pub(crate) fn let_in(&mut self, known: bool, page: u32)
        requires room { size (model self.old) < (model self.old).bound }
        requires absent { resident (model self.old) page ≡ false }
        ensures { model self.new ≡ come (model self.old) known page }
    {
        if known {
            self.am.push(page);
            return;
        }
        self.a1in.push(page);
    }
}
