//! The slips of a book: the remainders of routable Retail Orders, which wait in it or are out to be executed away.
#![tactic(auto)]

pub mod list;
pub mod slip;
