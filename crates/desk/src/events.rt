//! What comes from outside.

use crate::words::{Price, Sent, Terms, Words};
use std::fmt;
use terms::market::{QuoteUpdate, Side};
use terms::orders::{NewOrder, PhaseEvent, RetailOrder};

/// What comes from outside to a venue.
// Form: no `Call<QuoteCall>`, which would say of each Retail Order how many places it is lent.
#[derive(Clone, Copy)]
pub enum Event {
    /// A centre quotes this on a side from now on; a size of 0 takes its quote away.
    Quote(QuoteUpdate),
    /// An exception is declared of a centre.
    Exception(u32),
    /// The exception of a centre is lifted.
    Return(u32),
    /// A member enters an order.
    Enter(NewOrder),
    /// A member cancels the order of a number.
    Cancel { member: u32, number: u32 },
    /// The phase of the day changes.
    Phase(PhaseEvent),
    /// A member is approved to send Retail Orders.
    Approve(u32),
    /// A member sends a Retail Order.
    Retail(RetailOrder),
    /// The slip of a number is drawn.
    Draw(u32),
    /// The slip of a number with so many shares comes back, so many of them executed away.
    GiveBack { number: u32, shares: u32, away: u32 },
}

// Writes what a centre quotes on a side from now on.
fn write_quote<W: fmt::Write>(f: &mut fmt::Formatter<W>, update: QuoteUpdate) -> fmt::Result {
    let QuoteUpdate {
        centre,
        side,
        price,
        size,
    } = update;
    let price = Price(Some(price));
    match (side, size) {
        (Side::Buy, 0) => write!(f, "Centre {centre} takes its bid away"),
        (Side::Buy, _) => write!(f, "Centre {centre} bids {price} for {size} shares"),
        (Side::Sell, 0) => write!(f, "Centre {centre} takes its offer away"),
        (Side::Sell, _) => write!(f, "Centre {centre} offers {size} shares at {price}"),
    }
}

impl fmt::Display for Event {
    fn fmt<W: fmt::Write>(&self, f: &mut fmt::Formatter<W>) -> fmt::Result {
        match *self {
            Event::Quote(update) => write_quote(f, update),
            Event::Exception(centre) => write!(f, "An exception is declared of centre {centre}"),
            Event::Return(centre) => write!(f, "The exception of centre {centre} is lifted"),
            Event::Enter(order) => write!(
                f,
                "Member {} enters an order, {}",
                order.member,
                Terms(order)
            ),
            Event::Cancel { member, number } => write!(f, "Member {member} cancels order {number}"),
            Event::Phase(change) => write!(f, "The day {}", Words(change)),
            Event::Approve(member) => write!(f, "Member {member} is to be approved"),
            Event::Retail(order) => write!(f, "{}", Sent(order)),
            Event::Draw(number) => write!(f, "The slip of order {number} is drawn"),
            Event::GiveBack {
                number,
                shares,
                away,
            } => write!(
                f,
                "The slip of order {number} comes back with {away} of {shares} shares executed away"
            ),
        }
    }
}
