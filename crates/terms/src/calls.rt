//! The calls that change the book or its quotes.

use crate::orders::{NewOrder, PhaseEvent, RetailOrder};

/// A call, over the quote calls that a kind of source takes.
#[derive(Clone, Copy, PartialEq, Eq, Debug)]
pub enum Call<Q> {
    /// A member asks an order to rest.
    Enter(NewOrder),
    /// A member cancels its resting order of a number.
    Cancel { member: u32, number: u32 },
    /// An approved member sends a Retail Order, and lends so many places of the fill list.
    Retail { order: RetailOrder, places: usize },
    /// The waiting slip of a number is handed out.
    Draw { number: u32 },
    /// A drawn slip, by its number and shares, comes back with the shares executed away.
    Return { number: u32, shares: u32, away: u32 },
    /// The phase of the day changes.
    Move(PhaseEvent),
    /// A member is approved to send Retail Orders.
    Approve { member: u32 },
    /// The approval of a member ends.
    Withdraw { member: u32 },
    /// The quotes change.
    Quotes(Q),
}
