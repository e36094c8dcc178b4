// What the programs of an office share: its books and its defect file as they are read, and its stock as
// it is printed. No contract can say what a file gives, but that each book is a whole number of pages; a test shows it read.
// No contract says what the table looks like either: the text of one stands in a test.
#![tactic(auto)]

mod books;
mod defect_file;
mod problem;
mod table;
#[cfg(test)]
mod tests;

pub use books::{Books, read_books};
pub use defect_file::{DefectFile, LineMark};
pub use problem::BookProblem;
pub use table::Table;
