//! A word that counts the entries that threads owe, and the seats that owe them.
//! Each call is one atomic step, a load, an addition or a subtraction, and none waits. That the word reads 0 once is final.
#![tactic(auto)]

mod count;
mod entry;
mod laws;
mod rule;
#[cfg(test)]
mod tests;
mod view;

pub use count::{Count, CountSeat};
pub use entry::Entry;
pub use laws::rule_says;
pub use view::View;
