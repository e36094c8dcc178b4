// The register of an office: its batch book, its fee book and last year's archive as one volume, which
// it reads and writes through one pool.
#![tactic(auto)]

mod day;
mod problem;
mod save;
mod session;
mod settings;

use anyhow::bail;
use day::work;
use desk::{Books, read_books};
use ends::whole_pages;
use problem::Problem;
use save::save;
use settings::read_settings;
use std::env;
use stock::Layout;
use volume::open_volume;

const USAGE: &str = "usage: register BATCH-BOOK FEE-BOOK ARCHIVE DEFECTS [SETTINGS]
Works the volume that the three books make, through one buffer pool. DEFECTS is a
text file: each line marks a page of the batch book, as `3 worn` or `3 lost`;
blank lines and lines that begin with # are passed over.
SETTINGS are the pool's policy and frame count, from 4 to 64: `2q 16` (this is
used where none are given) or `lru2 16 crp 50`.
Commands are read from standard input, one to a line:
  settle NUMBER  settles the batch with that number together with its fee
  stock          takes stock of the volume, page by page
  report         tells the pool's hits and fetches
  flush          writes every changed page back to the books in memory
At the end of the commands the books that were altered are written back to their
files, each as a new file that takes the old one's place.";

// The words and the help are read where the usage stands, here as in the other program of an office.
fn run(rt: &HostRuntime) -> Result<(), Problem> {
    let heap = rt.alloc();
    let words: Vec<String> = env::args(rt)?.skip(1).collect(heap)?;
    if let [word] = words.as_slice()
        && word.as_str() == "--help"
    {
        rt.println(USAGE)?;
        return Ok(());
    }
    let (names, settings) = words
        .as_slice()
        .split_first_chunk::<4>()
        .ok_or(Problem::Usage)?;
    let settings = read_settings(settings)?;
    let Books {
        mut batch,
        mut fees,
        archive,
        defects,
    } = read_books(rt, names)?;
    let layout = Layout {
        batch_pages: whole_pages(batch.len()),
        fee_pages: whole_pages(fees.len()),
    };
    let marks = defects.marks(heap)?;
    let volume = open_volume(&mut batch, &mut fees, &archive, &marks).map_err(
        |refused| defects.blame(refused),
    )?;
    if work(rt, settings, volume, layout)? {
        save(rt, &names[0], &batch)?;
        save(rt, &names[1], &fees)?;
    }
    Ok(())
}

// Each program names itself and what did not happen: a function for all would take both as texts.
fn main(rt: HostRuntime) -> anyhow::Result<()> {
    if let Err(problem) = run(&rt) {
        eprintln!(rt; "register: {problem}")?;
        bail!("the register stopped");
    }
    Ok(())
}
