//! What the program answers: how a run ends, with which number, and the texts that the commands write.
//! Nothing here reads or writes; a text is composed whole.
#![tactic(auto)]

mod cause;
mod counts;
mod fault;
mod formula;
mod half_edges;
mod no_cause;
mod place;
mod region_lines;
mod status;
mod summary_lines;
mod walk_lines;

pub use counts::check_text;
pub use fault::fault_line;
pub use half_edges::base_text;
pub use no_cause::NoCause;
pub use place::Place;
pub use region_lines::region_text;
pub use status::{Status, status_number};
pub use summary_lines::{summary_text, trial_text};
pub use walk_lines::path_text;

#[cfg(test)]
mod tests;
