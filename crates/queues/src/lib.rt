//! The orders of one side of the book, in three queues that no quote moves.
#![tactic(auto)]

mod queue;
pub mod side;
