use desk::BookProblem;
use std::alloc::AllocError;
use std::io;
use thiserror::Error;

// Why the program could not do its job. No file has been written then.
#[derive(Debug, Drop, Error)]
pub enum Problem {
    #[error("it takes four file names: batch book, fee book, archive, defects (--help says more)")]
    Usage,
    #[error(transparent)]
    Books(#[from] BookProblem),
    #[error("the table cannot be printed: {0}")]
    Output(#[from] io::Error),
    #[error("there is not enough memory")]
    Memory(#[from(alloc)] AllocError),
}
