//! What an event is answered.

use std::fmt;
use terms::refusals::Refusal;

/// The reply to an event: what there is to tell of it if it was taken, or why it was refused.
#[derive(Clone, Copy)]
pub struct Reply<T>(pub Result<T, Refusal>);

impl<T: fmt::Display> fmt::Display for Reply<T> {
    fn fmt<W: fmt::Write>(&self, f: &mut fmt::Formatter<W>) -> fmt::Result {
        match &self.0 {
            Ok(told) => write!(f, "{told}"),
            Err(why) => write!(f, "refused, {why} ({})", why.number()),
        }
    }
}
