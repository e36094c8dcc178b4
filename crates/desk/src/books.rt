ghost use Rattle.std.specs.Prelude.{◌≡◌, ◌%◌, IfOk, length};
ghost use Rattle.desk.specs.Whole.{WholeBooks};

use crate::defect_file::DefectFile;
use crate::problem::BookProblem;
use std::{fs, io};

// What the files of an office hold: the bytes of its books, and the marks of its defect file.
#[derive(Drop)]
pub struct Books {
    pub batch: Vec<u8>,
    pub fees: Vec<u8>,
    pub archive: Vec<u8>,
    pub defects: DefectFile,
}

// What a file held, or the problem that it cannot be read.
fn held<T>(name: &String, read: io::Result<T>) -> Result<T, BookProblem> {
    read.try_map_err(|error| -> Result<BookProblem, BookProblem> {
        Ok(BookProblem::File(name.clone()?, error))
    })
}

// A book: a whole number of pages.
fn read_book(rt: &HostRuntime, name: &String) -> Result<Vec<u8>, BookProblem>
    ensures { IfOk result (λ book. length book.items % 512 ≡ 0) }
{
    let bytes = held(name, fs::read(rt, name.as_str()))?;
    if bytes.len() % 512 != 0 {
        return Err(BookProblem::PartPage(name.clone()?, bytes.len()));
    }
    Ok(bytes)
}

fn read_defects(rt: &HostRuntime, name: &String) -> Result<DefectFile, BookProblem> {
    let heap = rt.alloc();
    let text = held(name, fs::read_to_string(rt, name.as_str()))?;
    DefectFile::read(heap, name.clone()?, text.as_str())
}

// Reads the batch book, the fee book, the archive and the defect file. What a file gives is left open, but that each
// book is a whole number of pages.
pub fn read_books(rt: &HostRuntime, names: &[String; 4]) -> Result<Books, BookProblem>
    ensures { IfOk result WholeBooks }
{
    let [batch, fees, archive, defects] = names;
    Ok(Books {
        batch: read_book(rt, batch)?,
        fees: read_book(rt, fees)?,
        archive: read_book(rt, archive)?,
        defects: read_defects(rt, defects)?,
    })
}
