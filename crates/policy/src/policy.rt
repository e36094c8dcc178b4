ghost use Rattle.std.specs.Prelude.{◌≡◌, ℕ, Bool, true, false, List, Option};
ghost use Rattle.policy.specs.Sets.{Kept, Chosen, accepts, entered, grown};

use crate::frames::FrameCount;

// A policy is a set of resident pages and a bound B on how many there are. It says which page leaves
// when a frame is needed. Every contract below holds whatever the time t is. Each says twice what a
// call does: for every policy, by the resident set, its size and B; and for the policy at hand, by
// what it remembers.
pub trait Policy {
    // What the policy remembers, with its settings and B, as its authors write it.
    ghost Model: { Type 0 };

    ghost model: { Self → Model };

    // The resident pages, how many there are, and B.
    ghost resident: { Model → ℕ → Bool };

    ghost size: { Model → ℕ };

    ghost bound: { Model → ℕ };

    // The model after a restart, after a hit of a resident page at a time, and after an admission of a
    // page in the place of another, or of none, at a time.
    ghost emptied: { Model → Model };

    ghost touched: { Model → ℕ → ℕ → Model };

    ghost admitted: { Model → ℕ → Option ℕ → ℕ → Model };

    // The choice among listed pages at a time.
    ghost chosen: { Model → List ℕ → ℕ → Option ℕ };

    // What the policy keeps, from its making on.
    ghost kept: { (s : Self) → Kept (resident (model s)) (size (model s)) (bound (model s)) };

    // B, which no call alters.
    fn frames(&self) -> FrameCount
        ensures { result.value ≡ bound (model self.now) };

    // Empties the policy and forgets what it remembered. Settings and B remain.
    fn restart(&mut self)
        ensures step { model self.new ≡ emptied (model self.old) }
        ensures resident { (q : ℕ) → resident (model self.new) q ≡ false }
        ensures size { size (model self.new) ≡ 0 }
        ensures bound { bound (model self.new) ≡ bound (model self.old) };

    // A page was asked for: answers whether it is resident, and leaves the resident set as it is.
    fn hit(&mut self, page: u32, t: u32) -> bool
        ensures answer { result ≡ resident (model self.old) page }
        ensures step { result ≡ true → model self.new ≡ touched (model self.old) page t }
        ensures refused { result ≡ false → self.new ≡ self.old }
        ensures resident { (q : ℕ) → resident (model self.new) q ≡ resident (model self.old) q }
        ensures size { size (model self.new) ≡ size (model self.old) }
        ensures bound { bound (model self.new) ≡ bound (model self.old) };

    // The page that would leave, among listed pages: any list will do.
    fn choose(&self, listed: &[u32], t: u32) -> Option<u32>
        ensures step { result ≡ chosen (model self.now) listed.now t }
        ensures right { Chosen (resident (model self.now)) listed.now result };

    // Puts a page in and the leaving one, if any, out. Answers no, and alters nothing, where the page
    // is resident, the leaving page is not, or nothing leaves a full set.
    fn admit(&mut self, page: u32, leaving: Option<u32>, t: u32) -> bool
        ensures answer { result ≡ accepts (resident (model self.old)) (size (model self.old)) (bound (model self.old)) page leaving }
        ensures step { result ≡ true → model self.new ≡ admitted (model self.old) page leaving t }
        ensures refused { result ≡ false → self.new ≡ self.old }
        ensures resident { result ≡ true → (q : ℕ) → resident (model self.new) q ≡ entered (resident (model self.old)) page leaving q }
        ensures size { result ≡ true → size (model self.new) ≡ grown (size (model self.old)) leaving }
        ensures bound { bound (model self.new) ≡ bound (model self.old) };
}
