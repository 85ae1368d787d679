//! What members and customers order, and what an order is filled with.

use crate::market::Side;

/// The kind of an order that rests in the book.
#[derive(Clone, Copy, PartialEq, Eq, Debug)]
pub enum OrderKind {
    /// A Retail Price Improvement Order: never displayed, and only for Retail Orders.
    Rpi,
    /// An ordinary order that is not displayed.
    Hidden,
    /// An ordinary order that is displayed.
    Displayed,
}

/// An order that asks to rest. With an offset its price follows the protected quote of its own side by that much,
/// and its limit is then a ceiling (a buy) or a floor (a sell).
#[derive(Clone, Copy, PartialEq, Eq, Debug)]
pub struct NewOrder {
    pub member: u32,
    pub side: Side,
    pub kind: OrderKind,
    pub limit: u32,
    pub offset: Option<u32>,
    pub shares: u32,
}

/// An order that rests under its number, with its remaining shares.
// Form: flat, with no `NewOrder` within, which would put a second name before each field in every rule and contract.
#[derive(Clone, Copy, PartialEq, Eq, Debug)]
pub struct RestingOrder {
    pub number: u32,
    pub member: u32,
    pub side: Side,
    pub kind: OrderKind,
    pub limit: u32,
    pub offset: Option<u32>,
    pub shares: u32,
}

/// The type of a Retail Order.
#[derive(Clone, Copy, PartialEq, Eq, Debug)]
pub enum RetailType {
    /// Meets only interest that improves on the protected quote; the remainder is cancelled.
    One,
    /// Also meets ordinary interest at the protected quote, or where no quote is protected; the remainder is cancelled.
    Two,
    /// As `Two`, but the remainder is routed away.
    TwoRoutable,
}

/// An order of a retail customer, sent by a member that is approved for it.
// Form: no `NewOrder` with another kind, since it has no offset and its kind is another type.
#[derive(Clone, Copy, PartialEq, Eq, Debug)]
pub struct RetailOrder {
    pub member: u32,
    pub side: Side,
    pub kind: RetailType,
    pub limit: u32,
    pub shares: u32,
}

/// What one resting order gives to a Retail Order: its number, its price and the shares.
#[derive(Clone, Copy, PartialEq, Eq, Debug)]
pub struct Fill {
    pub number: u32,
    pub price: u32,
    pub shares: u32,
}

/// An order that a Retail Order meets, at its ranked price and with its remaining shares.
// Form: no `Fill` with a kind, since the shares of a fill are given and these remain.
#[derive(Clone, Copy, PartialEq, Eq, Debug)]
pub struct Ranked {
    pub number: u32,
    pub kind: OrderKind,
    pub price: u32,
    pub shares: u32,
}

/// The remainder of a routable Retail Order, under that order's number: it waits in the book, or it is drawn, that is,
/// out to be executed away.
#[derive(Clone, Copy, PartialEq, Eq, Debug)]
pub struct Slip {
    pub number: u32,
    pub shares: u32,
    // Form: a flag, since its name says which of the two states it is, and the slip is the same in both.
    pub drawn: bool,
}

/// The phases of the day; it begins early.
#[derive(Clone, Copy, PartialEq, Eq, Debug)]
pub enum Phase {
    Early,
    Open,
    Halted,
    Closed,
}

/// What changes the phase of the day.
#[derive(Clone, Copy, PartialEq, Eq, Debug)]
pub enum PhaseEvent {
    Opening,
    Halting,
    Closing,
}
