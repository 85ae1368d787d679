//! How a Retail Order is filled from the three queues of a side: it goes down each queue once; nothing is sorted, nothing
//! is allocated, and the queues are only read.
#![tactic(auto)]

mod lane;
mod lanes;
mod reach;
pub mod walk;
