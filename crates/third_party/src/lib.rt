//! What somebody else writes over the public interfaces alone: sources of quotes of their own, over any other that they
//! hold or borrow, and a run over them. Nothing here has a proof file.
#![tactic(auto)]

pub mod lent;
pub mod source;
#[cfg(test)]
mod tests;
