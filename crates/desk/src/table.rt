use page::{Origin, State};
use std::fmt;
use stock::{Book, Line, Measure, Tally, total};

const BOOKS: [Book; 3] = [Book::Batch, Book::Fee, Book::Archive];

const MEASURES: [Measure; 5] = [
    Measure::Pages,
    Measure::Records,
    Measure::Malformed,
    Measure::Cents,
    Measure::Refusals,
];

// A stock as a table: a line for each page, the totals of each book, and the refusals met.
#[derive(Clone, Copy)]
pub struct Table<'a> {
    pub lines: &'a [Line],
}

// One line of a stock. Where a page has no state, origin, tally or refusal, a word or a dash stands.
#[derive(Clone, Copy)]
struct Row<'a> {
    line: &'a Line,
}

impl fmt::Display for Row<'_> {
    fn fmt<W: fmt::Write>(&self, f: &mut fmt::Formatter<W>) -> fmt::Result {
        let Line {
            page,
            book,
            state,
            found,
        } = *self.line;
        write!(f, "{page:>6}  {book:<8}")?;
        match state {
            Ok(state) => write!(f, "{state:<6}")?,
            Err(_) => write!(f, "{:<6}", "none")?,
        }
        match state.ok().and_then(State::origin) {
            Some(Origin { page, depth }) => write!(f, "{page:>8}{depth:>7}")?,
            None => write!(f, "{:>8}{:>7}", "-", "-")?,
        }
        match found {
            Ok(
                Tally {
                    used,
                    malformed,
                    amount,
                },
            ) => write!(f, "{used:>9}{malformed:>11}{amount:>14}{:>9}", "-"),
            Err(refusal) => {
                let number = refusal.number();
                write!(f, "{:>9}{:>11}{:>14}{number:>9}", "-", "-", "-")
            }
        }
    }
}

// The lines of a stock, one under another.
#[derive(Clone, Copy)]
struct Rows<'a> {
    lines: &'a [Line],
}

impl fmt::Display for Rows<'_> {
    fn fmt<W: fmt::Write>(&self, f: &mut fmt::Formatter<W>) -> fmt::Result {
        for line in self.lines {
            let row = Row { line };
            writeln!(f, "{row}")?;
        }
        Ok(())
    }
}

// The totals of one book. A sum of more than 128 bits is not told.
#[derive(Clone, Copy)]
struct Totals<'a> {
    lines: &'a [Line],
    book: Book,
}

impl fmt::Display for Totals<'_> {
    fn fmt<W: fmt::Write>(&self, f: &mut fmt::Formatter<W>) -> fmt::Result {
        let book = self.book;
        write!(f, "{book:<8}")?;
        for of in MEASURES {
            match total(self.lines, book, of) {
                Some(sum) => write!(f, "{sum:>14}")?,
                None => write!(f, "{:>14}", "too large")?,
            }
        }
        Ok(())
    }
}

// The refusals of pages that could not be read.
#[derive(Clone, Copy)]
struct Refusals<'a> {
    lines: &'a [Line],
}

impl fmt::Display for Refusals<'_> {
    fn fmt<W: fmt::Write>(&self, f: &mut fmt::Formatter<W>) -> fmt::Result {
        if self.lines.iter().all(|line| line.found.is_ok()) {
            return writeln!(f, "none");
        }
        for line in self.lines {
            if let Err(refusal) = line.found {
                let page = line.page;
                writeln!(f, "page {page}: {refusal}")?;
            }
        }
        Ok(())
    }
}

impl fmt::Display for Table<'_> {
    fn fmt<W: fmt::Write>(&self, f: &mut fmt::Formatter<W>) -> fmt::Result {
        let lines = self.lines;
        let pages = lines.len();
        writeln!(f, "Stock of the volume: {pages} pages\n")?;
        writeln!(
            f,
            "  page  book    state   origin  depth  records  malformed         cents  refusal"
        )?;
        let rows = Rows { lines };
        writeln!(
            f,
            "{rows}\ntotals           pages       records     malformed         cents      refusals"
        )?;
        for book in BOOKS {
            let totals = Totals { lines, book };
            writeln!(f, "{totals}")?;
        }
        let refusals = Refusals { lines };
        write!(f, "\nrefusals met\n{refusals}")
    }
}
