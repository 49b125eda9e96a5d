//! The report of a surface: its field, its base point, the classes that are reached from the base, by their codes,
//! and the matrices of the group. It is printed, and read back from its text.
#![tactic(auto)]

mod class;
mod fault;
pub mod laws;
mod lines;
mod matrix;
mod reader;
mod report;

pub use class::put_class;
pub use fault::ReportFault;
pub use matrix::{put_matrix, read_matrix};
pub use reader::read_report;
pub use report::{Report, print};

#[cfg(test)]
mod tests;
