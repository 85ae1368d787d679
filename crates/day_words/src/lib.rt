//! What a line of a day file says: a call, or a fault and its place.
#![tactic(auto)]

mod calls;
pub mod fault;
mod field;
pub mod line;
pub mod reading;
#[cfg(test)]
mod tests;
pub mod theorems;
