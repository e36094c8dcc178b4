use desk::BookProblem;
use page::Refusal;
use std::alloc::AllocError;
use std::io;
use thiserror::Error;

// Why the program could not do its job.
#[derive(Debug, Drop, Error)]
pub enum Problem {
    #[error("it takes four file names, batch book, fee book, archive and defects, and then settings (--help says more)")]
    Usage,
    #[error(transparent)]
    Books(#[from] BookProblem),
    #[error("the settings are `2q FRAMES` or `lru2 FRAMES crp PERIOD`, with a period up to 65535")]
    Settings,
    #[error("{0} is no frame count: {1}")]
    Frames(u32, Refusal),
    #[error("line {0} of the commands is none: write `settle NUMBER`, `stock`, `report` or `flush`")]
    Command(usize),
    #[error("{0} cannot be written: {1}; on disk it is as it was before the commands")]
    NotWritten(String, io::Error),
    #[error("standard input or output fails: {0}")]
    Output(#[from] io::Error),
    #[error("there is not enough memory")]
    Memory(#[from(alloc)] AllocError),
}
