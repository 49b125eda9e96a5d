//! Runs of the top call on hostile input: ends that fail at each of their calls, a file with any one of its bytes changed, and files
//! at the limits and one past them. It is a library of tests alone.
#![tactic(auto)]

#[cfg(test)]
mod tests;
