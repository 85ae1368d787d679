//! Calls and answers as plain numbers, as a program in C writes and reads them, and the calls of a whole list, answered.
#![tactic(auto)]

pub mod answers;
pub mod calls;
mod lists;
pub mod protecting;
pub mod running;
#[cfg(test)]
mod tests;
pub mod theorems;
