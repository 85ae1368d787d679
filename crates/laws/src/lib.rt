//! What holds of every run of calls, proved over the definitions of the book.
#![tactic(auto)]

pub mod theorems;
