use office::NoMark;
use page::Refusal;
use std::alloc::AllocError;
use std::io;
use thiserror::Error;

// Why the books of an office, or the marks of its defect file, are of no use.
#[derive(Debug, Drop, Error)]
pub enum BookProblem {
    #[error("{0} cannot be read: {1}")]
    File(String, io::Error),
    #[error("{0} has {1} bytes, which is no whole number of pages of 512 bytes")]
    PartPage(String, usize),
    #[error("line {1} of {0} {2}")]
    Line(String, usize, NoMark),
    #[error("line {1} of {0} cannot be marked in the batch book: {2}")]
    Mark(String, usize, Refusal),
    #[error("there is not enough memory")]
    Memory(#[from(alloc)] AllocError),
}
