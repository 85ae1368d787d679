//! The words that every other crate shares: what is quoted, what is ordered, why a call is refused, and the limits on every number that comes from outside.
//!
//! Prices, limits and offsets are in mills (a tenth of a cent), sizes and orders in shares.
#![tactic(auto)]

pub mod calls;
pub mod limits;
pub mod market;
pub mod orders;
pub mod refusals;
