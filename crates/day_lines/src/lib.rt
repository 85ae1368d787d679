//! The bytes of a day file, read as lines, and a line read as fields.
#![tactic(auto)]

mod bytes;
mod cut;
pub mod fields;
pub mod number;
pub mod reader;
#[cfg(test)]
mod tests;
pub mod theorems;
