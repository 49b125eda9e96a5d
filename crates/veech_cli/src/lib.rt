//! The commands of the program: words in, bytes in, bytes out and a status.
#![tactic(auto)]

mod base;
mod check;
mod group;
pub mod laws;
mod make;
mod one_thread;
mod path;
mod plain;
mod program;
mod refusal;
mod region;
mod surface;
mod trial;
mod turns;
mod workers;

pub use answer_text::{NoCause, Place, Status, status_number};
pub use command_words::WordList;
pub use one_thread::run_plain;
pub use program::run_program;
pub use workers::run;

#[cfg(test)]
mod tests;
