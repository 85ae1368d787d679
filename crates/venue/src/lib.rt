//! A book with the slips that it has handed out; one call of a list; and whole runs of calls.
#![tactic(auto)]

pub mod answers;
mod closing;
pub mod runs;
#[cfg(test)]
mod tests;
pub mod venue;
