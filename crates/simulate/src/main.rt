// Runs the two proved replacement policies beside plain simulators, which were written from the rules
// alone, and compares every victim and all that is remembered after every reference.
#![tactic(auto)]

mod drive;
mod histories;
mod listing;
mod problem;
mod queues;
mod random;
mod settings;
mod simulator;
mod times;
mod workload;

use anyhow::bail;
use drive::{Tally, drive};
use histories::Histories;
use lru_two::LruTwo;
use policy::{FrameCount, Policy};
use problem::Problem;
use queues::Queues;
use settings::{Settings, Subject};
use simulator::Simulator;
use std::fmt;
use two_q::TwoQ;
use workload::WORKLOADS;

const FRAMES: [u32; 4] = [4, 7, 16, 64];

const PERIODS: [u16; 3] = [0, 3, 50];

// What all runs so far came to.
#[derive(Clone, Copy, Default)]
struct Totals {
    runs: u32,
    references: u32,
    tally: Tally,
}

impl Totals {
    // Counts a run, and prints its line.
    fn add(&mut self, rt: &HostRuntime, settings: Settings, tally: Tally) -> Result<(), Problem> {
        self.runs = self.runs.saturating_add(1);
        self.references = self.references.saturating_add(settings.references);
        self.tally.add(tally);
        let memory = settings.subject.memory();
        println!(rt; "{settings}: {tally}, {memory} and victims agree")?;
        Ok(())
    }
}

impl fmt::Display for Totals {
    fn fmt<W: fmt::Write>(&self, f: &mut fmt::Formatter<W>) -> fmt::Result {
        let Totals {
            runs,
            references,
            tally,
        } = *self;
        write!(f, "{runs} runs, {references} references: {tally}")
    }
}

// One policy through every workload, restarted for each, beside a new simulator for each.
fn run_policy<P: Policy, S: Simulator<P> + Drop, F: Fn() -> S>(
    rt: &HostRuntime,
    totals: &mut Totals,
    subject: Subject,
    frames: FrameCount,
    policy: &mut P,
    new_simulator: F,
) -> Result<(), Problem>
    requires { F.IsAlwaysCallable new_simulator }
{
    for workload in WORKLOADS {
        let settings = Settings::numbered(subject, frames, workload, totals.runs);
        let mut simulator = new_simulator();
        let tally = drive(rt.alloc(), settings, policy, &mut simulator)?;
        totals.add(rt, settings, tally)?;
    }
    Ok(())
}

// A subject is run as the policy that it names, beside the simulator of the same rules.
fn run_subject(
    rt: &HostRuntime,
    totals: &mut Totals,
    subject: Subject,
    number: u32,
) -> Result<(), Problem> {
    let frames = FrameCount::new(number).map_err(|_refusal| Problem::Frames)?;
    let heap = rt.alloc();
    match subject {
        Subject::TwoQ => {
            let mut policy = TwoQ::new(frames);
            run_policy(
                rt,
                totals,
                subject,
                frames,
                &mut policy,
                || Queues::new(heap, frames),
            )
        }
        Subject::LruTwo(crp) => {
            let mut policy = LruTwo::new(frames, crp);
            run_policy(rt, totals, subject, frames, &mut policy, || {
                Histories::new(heap, frames, crp)
            })
        }
    }
}

fn run(rt: &HostRuntime) -> Result<(), Problem> {
    let mut totals = Totals::default();
    for number in FRAMES {
        run_subject(rt, &mut totals, Subject::TwoQ, number)?;
    }
    for number in FRAMES {
        for crp in PERIODS {
            run_subject(rt, &mut totals, Subject::LruTwo(crp), number)?;
        }
    }
    println!(rt; "{totals}, and everything agrees")?;
    Ok(())
}

// Each program names itself and what did not happen: a function for all would take both as texts.
fn main(rt: HostRuntime) -> anyhow::Result<()> {
    if let Err(problem) = run(&rt) {
        eprintln!(rt; "simulate: {problem}")?;
        bail!("the simulation ended early");
    }
    Ok(())
}
