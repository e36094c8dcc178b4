use crate::problem::{Mismatch, Problem, Stop};
use crate::random::Random;
use crate::settings::Settings;
use crate::simulator::Simulator;
use crate::times::Watch;
use crate::workload::Source;
use policy::Policy;
use std::alloc::{AllocError, Global};
use std::fmt;

// What references came to.
#[derive(Clone, Copy, Default)]
pub(crate) struct Tally {
    pub(crate) hits: u32,
    pub(crate) fetches: u32,
}

impl Tally {
    // Counts a reference, which was a hit or a fetch.
    fn count(&mut self, hit: bool) {
        if hit {
            self.hits = self.hits.saturating_add(1);
        } else {
            self.fetches = self.fetches.saturating_add(1);
        }
    }

    pub(crate) fn add(&mut self, other: Tally) {
        self.hits = self.hits.saturating_add(other.hits);
        self.fetches = self.fetches.saturating_add(other.fetches);
    }
}

impl fmt::Display for Tally {
    fn fmt<W: fmt::Write>(&self, f: &mut fmt::Formatter<W>) -> fmt::Result {
        let Tally { hits, fetches } = *self;
        write!(f, "{hits} hits, {fetches} fetches")
    }
}

// The pages in the frames, and what is needed to list them.
#[derive(Drop)]
struct Pool {
    settings: Settings,
    frames: Vec<u32>,
    random: Random,
}

impl Pool {
    fn is_full(&self) -> bool {
        self.frames.len() >= self.settings.frames.value() as usize
    }

    // A page comes into the frame of the leaving one, or into a free one.
    fn settle(&mut self, page: u32, leaving: Option<u32>) -> Result<(), AllocError> {
        let Some(gone) = leaving else {
            self.frames.push(page)?;
            return Ok(());
        };
        if let Some(place) = self.frames.iter_mut().find(|place| **place == gone) {
            *place = page;
        }
        Ok(())
    }
}

// The page that has to leave, if the pool is full. Policy and simulator travel together from here on: a struct
// that lends both got no generated proof.
fn leaving<P: Policy, S: Simulator<P>>(
    pool: &mut Pool,
    policy: &P,
    simulator: &S,
    page: u32,
    t: u32,
) -> Result<Option<u32>, Stop> {
    if !pool.is_full() {
        return Ok(None);
    }
    let heap = pool.frames.allocator();
    let listing = pool.settings.listing;
    let listed = listing.listed(*heap, &pool.frames, page, &mut pool.random)?;
    let victim = policy.choose(&listed, t);
    if victim != simulator.victim(&listed, t) {
        return Err(Stop::Differs(Mismatch::Victim));
    }
    if victim.is_none() {
        return Err(Stop::Differs(Mismatch::NoVictim));
    }
    Ok(victim)
}

// One reference, to both. Answers whether it was a hit.
fn refer<P: Policy, S: Simulator<P>>(
    pool: &mut Pool,
    policy: &mut P,
    simulator: &mut S,
    page: u32,
    t: u32,
) -> Result<bool, Stop> {
    let hit = policy.hit(page, t);
    if hit != simulator.hit(page, t)? || hit != pool.frames.contains(&page) {
        return Err(Stop::Differs(Mismatch::Hit));
    }
    if !hit {
        let victim = leaving(pool, policy, simulator, page, t)?;
        if !policy.admit(page, victim, t) {
            return Err(Stop::Differs(Mismatch::Refused));
        }
        simulator.admit(page, victim, t)?;
        pool.settle(page, victim)?;
    }
    if !simulator.agrees(policy) {
        return Err(Stop::Differs(Mismatch::Remembered));
    }
    Ok(hit)
}

// A whole run on the emptied policy and a new simulator.
pub(crate) fn drive<P: Policy, S: Simulator<P>>(
    heap: Global,
    settings: Settings,
    policy: &mut P,
    simulator: &mut S,
) -> Result<Tally, Problem> {
    let mut pool = Pool {
        settings,
        frames: Vec::new(heap),
        random: Random::new(settings.seed.wrapping_add(2)),
    };
    let mut source = Source::new(settings.workload, settings.frames, settings.seed);
    let mut watch = Watch::new(settings.times, settings.seed);
    let mut tally = Tally::default();
    policy.restart();
    for reference in 1..=settings.references {
        let page = source.page();
        let t = watch.tick();
        let hit = refer(&mut pool, policy, simulator, page, t).map_err(|stop| stop.at(
            settings, reference, page,
        ))?;
        tally.count(hit);
    }
    Ok(tally)
}
