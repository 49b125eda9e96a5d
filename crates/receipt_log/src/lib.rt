//! A list of entries that only grows, and receipts that have seen a prefix of it.
//! The list stands in contracts alone: what is stored is its length. Each call is one, two or three atomic steps, a load or an addition, and none waits.
#![tactic(auto)]

mod keeper;
mod laws;
mod receipt;
mod rule;
#[cfg(test)]
mod tests;
mod view;

pub use keeper::LogKeeper;
pub use laws::rule_says;
pub use receipt::Receipt;
pub use view::View;
