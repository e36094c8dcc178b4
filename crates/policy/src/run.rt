ghost use Rattle.std.specs.Prelude.{◌≡◌, ◌<◌, ◌≤◌, length};
ghost use Rattle.policy.specs.Runs.{Turn, turn, leaving as leaving_of, hits as hits_in, DidRun, Standing};
ghost use Rattle.policy.specs.Sets.{Chosen};

use crate::outcome::Outcome;
use crate::places::swap;
use crate::policy::Policy;
use arrayvec::ArrayVec;

// The page that has to leave: none while a frame is free.
fn leaving<P: Policy>(policy: &P, held: &[u32], t: u32) -> Option<u32>
    ensures value { result ≡ leaving_of P.Policy (P.Policy.model policy.now) held.now t }
    ensures right { P.Policy.bound (P.Policy.model policy.now) ≤ length held.now → Chosen (P.Policy.resident (P.Policy.model policy.now)) held.now result }
{
    if held.len() < policy.frames().value() as usize {
        return None;
    }
    policy.choose(held, t)
}

// One reference: the page is asked for and let go at once.
fn refer<P: Policy>(policy: &mut P, held: &mut ArrayVec<u32, 64>, page: u32, t: u32) -> Outcome
    requires { Standing P.Policy (P.Policy.model policy.old) held.old.items }
    ensures turn { ◌≡◌ {A = Turn P.Policy.Model} (record { model = P.Policy.model policy.new; held = held.new.items; outcome = result }) (turn P.Policy (P.Policy.model policy.old) held.old.items page t) }
    ensures standing { Standing P.Policy (P.Policy.model policy.new) held.new.items }
{
    if policy.hit(page, t) {
        return Outcome::Hit;
    }
    let out = leaving(policy, held.as_slice(), t);
    let _ = policy.admit(page, out, t);
    swap(held, page, out);
    Outcome::Fetch(out)
}

// How many references were hits.
fn count_hits(outcomes: &[Outcome]) -> u32
    requires { length outcomes.now < 4294967296 }
    ensures value { result ≡ hits_in outcomes.now }
    ensures few { result ≤ length outcomes.now }
{
    let hits = outcomes
        .iter()
        .filter(|outcome| matches!(outcome, Outcome::Hit));
    hits.count() as u32
}

// Runs a reference string on an emptied policy, each page asked for and let go at once, at the time
// that is its number, from 1. It answers hits and fetches, and writes what each reference came to. It
// stops where the string, the places for outcomes or the times end.
pub fn run_string<P: Policy>(policy: &mut P, string: &[u32], outcomes: &mut [Outcome]) -> (u32, u32)
    ensures { DidRun P.Policy (P.Policy.model policy.old) string.now outcomes.old result.0 result.1 (P.Policy.model policy.new) outcomes.new }
{
    policy.restart();
    let mut held = ArrayVec::new();
    let most = string.len().min(outcomes.len()).min(4294967295);
    // The number of a reference is its place in two slices and its time: a zip of three is no plainer.
    for i in 0..most {
        outcomes[i] = refer(policy, &mut held, string[i], i as u32 + 1);
    }
    let hits = count_hits(&outcomes[0..most]);
    (hits, most as u32 - hits)
}
