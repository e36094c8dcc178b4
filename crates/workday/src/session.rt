use crate::problem::Problem;
use desk::Table;
use device::Device;
use ledger::{Fault, Shelves, settle_number};
use office::read_number;
use policy::Policy;
use pool::Pool;
use records::{Batch, Fee};
use std::alloc::{AllocError, Global};
use std::fmt;
use stock::{Layout, Line};
use stocktake::line_through;

// The mark of the register's pool.
const MARK: u32 = 1;

// What a line of the commands asks for.
#[derive(Clone, Copy)]
enum Command {
    Settle(u32),
    Stock,
    Report,
    Flush,
}

// A line of the commands that is none.
#[derive(Drop)]
struct NoCommand;

// Reads a command; blank lines, and lines that begin with #, have none.
fn read_command(line: &str) -> Result<Option<Command>, NoCommand> {
    let command = match line.as_bytes() {
        [] | [b'#', ..] => return Ok(None),
        b"stock" => Some(Command::Stock),
        b"report" => Some(Command::Report),
        b"flush" => Some(Command::Flush),
        other => other
            .strip_prefix(b"settle ")
            .and_then(|digits| read_number(digits))
            .map(Command::Settle),
    };
    command.map(Some).ok_or(NoCommand)
}

// Why a batch was not settled, in the words of this program.
#[derive(Clone, Copy)]
struct Reason(Fault);

impl fmt::Display for Reason {
    fn fmt<W: fmt::Write>(&self, f: &mut fmt::Formatter<W>) -> fmt::Result {
        match self.0 {
            Fault::Refused(page, refusal) => write!(f, "page {page} is {refusal}"),
            Fault::Malformed(page, malformed) => {
                write!(f, "a record of page {page} is malformed: {malformed}")
            }
            Fault::NoBatch => write!(f, "there is no such batch on a page that can be read"),
            Fault::NoFee => write!(f, "there is no fee for it on a page that can be read"),
            Fault::SettledBatch => write!(f, "it is settled already"),
            Fault::SettledFee => write!(f, "its fee is settled already"),
            Fault::OtherBatch(other) => write!(f, "the record is of batch {other}"),
            Fault::FeeAboveValue => write!(f, "the fee is above the value"),
        }
    }
}

// What settling the batch with a number came to.
fn print_outcome(
    rt: &HostRuntime,
    number: u32,
    settled: Result<(Batch, Fee), Fault>,
) -> Result<(), Problem> {
    match settled {
        Ok((batch, fee)) => {
            let Batch {
                number,
                grocer,
                face_value,
                ..
            } = batch;
            let amount = fee.amount;
            println!(rt;
                "batch {number} of grocer {grocer} is settled: value {face_value}, fee {amount}"
            )?;
        }
        Err(fault) => {
            let reason = Reason(fault);
            println!(rt; "batch {number} is not settled: {reason}")?;
        }
    }
    Ok(())
}

// A pool over a volume, and how the books lie in the volume.
pub(crate) struct Session<D: Device, P: Policy> {
    pool: Pool<D, P>,
    layout: Layout,
}

impl<D: Device, P: Policy + Drop> Session<D, P> {
    pub(crate) fn open(volume: D, policy: P, layout: Layout) -> Session<D, P> {
        Session {
            pool: Pool::open(volume, policy, MARK),
            layout,
        }
    }

    // Writes every changed page back and gives the volume back.
    pub(crate) fn close(self) -> D {
        let Session {
            pool,
            layout: _layout,
        } = self;
        pool.close()
    }

    // The pages that fees are looked for on.
    fn shelves(&self) -> Shelves {
        let Layout {
            batch_pages,
            fee_pages,
        } = self.layout;
        Shelves {
            fees_from: batch_pages,
            fees_to: batch_pages.saturating_add(fee_pages),
        }
    }

    // Takes stock of the volume, page by page.
    fn stock(&mut self, heap: Global) -> Result<Vec<Line>, AllocError> {
        let count = self.pool.device().count();
        let layout = self.layout;
        (0..count)
            .map(|page| line_through(&mut self.pool, layout, page))
            .collect(heap)
    }

    // Does one command, and answers whether a record was altered.
    fn obey(&mut self, rt: &HostRuntime, command: Command) -> Result<bool, Problem> {
        match command {
            Command::Settle(number) => {
                let shelves = self.shelves();
                let settled = settle_number(&mut self.pool, shelves, number);
                print_outcome(rt, number, settled)?;
                return Ok(settled.is_ok());
            }
            Command::Stock => {
                let lines = self.stock(rt.alloc())?;
                let table = Table { lines: &lines };
                print!(rt; "{table}")?;
            }
            Command::Report => {
                let (hits, fetches) = self.pool.report();
                println!(rt; "the pool had {hits} hits and {fetches} fetches")?;
            }
            Command::Flush => {
                self.pool.flush_all();
                println!(rt; "every changed page is written back")?;
            }
        }
        Ok(false)
    }

    // Does the commands of the standard input, and answers whether a record was altered.
    pub(crate) fn serve(&mut self, rt: &HostRuntime) -> Result<bool, Problem> {
        let mut altered = false;
        for (number, line) in (1..).zip(rt.lines(rt.alloc())) {
            let line = line?;
            let command = read_command(line.as_str()).map_err(|_none| Problem::Command(number))?;
            if let Some(command) = command {
                altered |= self.obey(rt, command)?;
            }
        }
        Ok(altered)
    }
}
