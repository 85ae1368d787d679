//! What a source of quotes stands for, the one interface of all sources, and the protected bid and offer.
#![tactic(auto)]

pub mod filter;
pub mod passing;
pub mod prices;
pub mod search;
pub mod source;
pub mod tells;
