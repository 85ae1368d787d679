//! A day file and its answers: the bytes of the one lead to the bytes of the other.
#![tactic(auto)]

pub mod answering;
mod day;
pub mod places;
#[cfg(test)]
mod tests;
pub mod theorems;
mod writing;
