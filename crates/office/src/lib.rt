// What the register does on values: the lines of a defect file, and the stock of the shipped volume.
#![tactic(auto)]

mod defect_line;
mod number;
mod take;
#[cfg(test)]
mod tests;

pub use defect_line::{NoMark, read_defect_line};
pub use number::read_number;
pub use take::{StockFault, stock_of};
