//! The book of one security: what it holds, and its calls.
#![tactic(auto)]

pub mod answers;
mod entry;
pub mod ledger;
mod retail;
#[cfg(test)]
mod tests;
