//! The words of a command line: which lists of words name a command, and what they say of it.
//! A list of words is looked at by the grammar, which takes no memory, and a list that it takes is read by clap.
#![tactic(auto)]

mod choices;
mod class_limit;
mod command;
mod family_number;
mod fronts;
mod grammar;
pub mod laws;
mod lines;
mod parsing;
mod rows;
mod values;
mod words;
mod worker_number;

pub use choices::Choices;
pub use class_limit::ClassLimit;
pub use command::{Command, read_command};
pub use family_number::FamilyNumber;
pub use words::WordList;
pub use worker_number::WorkerNumber;
