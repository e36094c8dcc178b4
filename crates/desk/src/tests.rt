use crate::{BookProblem, Books, DefectFile, LineMark, Table, read_books};
use defects::{Defect, Mark};
use page::{Origin, Refusal, State};
use std::alloc::{AllocError, Global};
use std::fs;
use std::test::Fail;
use stock::{Book, Line, Tally};
use volume::MarkRefused;

fn name(heap: Global, text: &str) -> Result<String, AllocError> {
    String::from_str(heap, text)
}

fn read(rt: &HostRuntime, fee: &str) -> Result<Result<Books, BookProblem>, Fail> {
    let heap = rt.alloc();
    fs::write(rt, "batch.book", [1u8; 1024])?;
    fs::write(rt, "fee.book", fee)?;
    fs::write(rt, "archive.book", [2u8; 512])?;
    fs::write(rt, "defects.txt", "# bad pages\n\n1 worn\r\n3 lost\n")?;
    let names = [
        name(heap, "batch.book")?,
        name(heap, "fee.book")?,
        name(heap, "archive.book")?,
        name(heap, "defects.txt")?,
    ];
    let books = read_books(rt, &names);
    for name in names.iter() {
        fs::remove_file(rt, name.as_str())?;
    }
    Ok(books)
}

#[test]
fn books_are_read(rt: HostRuntime) -> Result<(), Fail> {
    let books = read(&rt, "")??;
    assert_eq!(rt; books.batch.as_slice(), [1u8; 1024].as_slice());
    assert!(rt; books.fees.is_empty());
    assert_eq!(rt; books.archive.as_slice(), [2u8; 512].as_slice());
    let marks = books.defects.marks(rt.alloc())?;
    let worn = Mark {
        page: 1,
        defect: Defect::Worn,
    };
    let lost = Mark {
        page: 3,
        defect: Defect::Lost,
    };
    assert_eq!(rt; marks.as_slice(), [worn, lost].as_slice());
    let refused = MarkRefused {
        at: 1,
        refusal: Refusal::NoSuchPage,
    };
    let problem = books.defects.blame(refused).to_string(rt.alloc())?;
    assert_eq!(rt;
        problem.as_str(),
        "line 4 of defects.txt cannot be marked in the batch book: refused 2: there is no such page"
    );
    let Err(part) = read(&rt, "12345")? else {
        return Err(Fail::new("five bytes were read as a book"));
    };
    let told = part.to_string(rt.alloc())?;
    assert_eq!(rt;
        told.as_str(),
        "fee.book has 5 bytes, which is no whole number of pages of 512 bytes"
    );
    Ok(())
}

#[test]
fn a_line_that_is_no_mark_is_told(rt: HostRuntime) -> Result<(), Fail> {
    let Err(line) = DefectFile::parse(rt.alloc(), name(rt.alloc(), "d")?, &["3 worn", "3 losst"])
    else {
        return Err(Fail::new("a word was read as a mark"));
    };
    let told = line.to_string(rt.alloc())?;
    assert_eq!(rt;
        told.as_str(),
        "line 2 of d is no mark: write a page number and worn or lost, as `3 worn`"
    );
    Ok(())
}

#[test]
fn a_text_is_read_line_by_line(rt: HostRuntime) -> Result<(), Fail> {
    let heap = rt.alloc();
    let text = "\n# bad pages\r\n1 worn\r\n\n\r\n30 lost\n# 2 worn\n5 worn";
    let file = DefectFile::read(heap, name(heap, "d")?, text)?;
    assert_eq!(rt; file.name.as_str(), "d");
    let marked = |line, page, defect| LineMark {
        line,
        mark: Mark { page, defect },
    };
    let wanted = [
        marked(3, 1, Defect::Worn),
        marked(6, 30, Defect::Lost),
        marked(8, 5, Defect::Worn),
    ];
    assert_eq!(rt; file.marks.as_slice(), wanted.as_slice());
    let empty = DefectFile::read(heap, name(heap, "d")?, "")?;
    assert!(rt; empty.marks.is_empty());
    Ok(())
}

#[test]
fn a_text_is_refused_at_its_first_bad_line(rt: HostRuntime) -> Result<(), Fail> {
    let heap = rt.alloc();
    let text = "# bad pages\r\n\r\n3 worn\r\n3 losst\r\nworse\r\n4 lost\r\n";
    let Err(line) = DefectFile::read(heap, name(heap, "d")?, text) else {
        return Err(Fail::new("a word was read as a mark"));
    };
    let told = line.to_string(heap)?;
    assert_eq!(rt;
        told.as_str(),
        "line 4 of d is no mark: write a page number and worn or lost, as `3 worn`"
    );
    Ok(())
}

#[test]
fn a_stock_is_a_table(rt: HostRuntime) -> Result<(), Fail> {
    let tally = Tally {
        used: 3,
        malformed: 1,
        amount: 121535,
    };
    let origin = Origin { page: 1, depth: 2 };
    let lines = [
        Line {
            page: 0,
            book: Book::Batch,
            state: Ok(State::Worn(origin)),
            found: Ok(tally),
        },
        Line {
            page: 1,
            book: Book::Fee,
            state: Ok(State::Sound),
            found: Ok(tally),
        },
        Line {
            page: 2,
            book: Book::Archive,
            state: Err(Refusal::NoSuchPage),
            found: Err(Refusal::NoSuchPage),
        },
    ];
    let text = Table { lines: &lines }.to_string(rt.alloc())?;
    let wanted = [
        "Stock of the volume: 3 pages",
        "",
        "  page  book    state   origin  depth  records  malformed         cents  refusal",
        "     0  batch   worn         1      2        3          1        121535        -",
        "     1  fee     sound        -      -        3          1        121535        -",
        "     2  archive none         -      -        -          -             -        2",
        "",
        "totals           pages       records     malformed         cents      refusals",
        "batch                1             3             1        121535             0",
        "fee                  1             3             1        121535             0",
        "archive              1             0             0             0             1",
        "",
        "refusals met",
        "page 2: refused 2: there is no such page",
    ];
    assert!(rt; text.as_str().ends_with('\n'));
    let lines: Vec<&str> = text.lines().collect(rt.alloc())?;
    assert_eq!(rt; lines.as_slice(), wanted.as_slice());
    Ok(())
}
