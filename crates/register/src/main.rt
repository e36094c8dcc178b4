// Takes stock of an office's volume: the batch book, the fee book and last year's archive.
#![tactic(auto)]

mod problem;

use anyhow::bail;
use desk::{BookProblem, Books, Table, read_books};
use office::{StockFault, stock_of};
use problem::Problem;
use std::alloc::AllocError;
use std::env;

const USAGE: &str = "usage: register BATCH-BOOK FEE-BOOK ARCHIVE DEFECTS
Takes stock of the volume that the three books make, page by page. DEFECTS is a
text file: each line marks a page of the batch book, as `3 worn` or `3 lost`;
blank lines and lines that begin with # are passed over. Nothing is written.";

// The words and the help are read where the usage stands, here as in the other program of an office.
fn run(rt: &HostRuntime) -> Result<(), Problem> {
    let heap = rt.alloc();
    let words: Vec<String> = env::args(rt)?.skip(1).collect(heap)?;
    if let [word] = words.as_slice()
        && word.as_str() == "--help"
    {
        rt.println(USAGE)?;
        return Ok(());
    }
    let names = words.as_slice().as_array::<4>().ok_or(Problem::Usage)?;
    let Books {
        mut batch,
        mut fees,
        archive,
        defects,
    } = read_books(rt, names)?;
    let marks = defects.marks(heap)?;
    let lines = stock_of(heap, &mut batch, &mut fees, &archive, &marks).map_err(
        |fault| match fault {
            StockFault::Mark(refused) => defects.blame(refused),
            StockFault::Memory => BookProblem::Memory(AllocError),
        },
    )?;
    let table = Table { lines: &lines };
    print!(rt; "{table}")?;
    Ok(())
}

// Each program names itself and what did not happen: a function for all would take both as texts.
fn main(rt: HostRuntime) -> anyhow::Result<()> {
    if let Err(problem) = run(&rt) {
        eprintln!(rt; "register: {problem}")?;
        bail!("no stock was taken");
    }
    Ok(())
}
