//! The answers of a day as bytes: what a line of them tells, how it is written, and that no two are written alike.
#![tactic(auto)]

pub mod answer;
pub mod bytes;
#[cfg(test)]
mod tests;
pub mod theorems;
