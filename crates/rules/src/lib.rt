//! The rules of the book: what a resting order is worth, which orders a Retail Order meets, and in which sequence.
#![tactic(auto)]

pub mod theorems;
