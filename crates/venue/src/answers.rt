//! What any call answers.

use book::answers::{CancelAnswer, EntryAnswer, RetailAnswer};
use slips::slip::ReturnAnswer;

/// The answer to a call that is not refused.
#[derive(Clone, Copy, PartialEq, Eq, Debug)]
pub enum Answer {
    /// A phase, an approval, a withdrawal or a quote call was taken.
    Done,
    /// An order rests.
    Entered(EntryAnswer),
    /// A resting order was cancelled.
    Cancelled(CancelAnswer),
    /// A Retail Order was taken; its fills stand in the fill list.
    Traded(RetailAnswer),
    /// A slip with these shares was handed out, under the number of its Retail Order.
    Drawn { number: u32, shares: u32 },
    /// A slip came back.
    Returned(ReturnAnswer),
}
