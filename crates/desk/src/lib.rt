//! The operations desk of a security: the events that it follows, the Retail Orders that it holds against the resting
//! orders, and what it prints of both, in its own words.
#![tactic(auto)]

pub mod answers;
mod customers;
pub mod events;
pub mod report;
pub mod words;
