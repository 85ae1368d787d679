//! Amounts, orders and how they stand, in the words of the desk.

ghost use Rattle.std.specs.Prelude.{◌≡◌};
ghost use Rattle.desk.specs.Terms.{terms_of};

use crate::customers::Standing;
use book::answers::Identifier;
use std::fmt;
use terms::market::Side;
use terms::orders::{NewOrder, OrderKind, PhaseEvent, RestingOrder, RetailOrder, RetailType};

/// An amount of mills, in dollars.
#[derive(Clone, Copy)]
pub struct Dollars(pub u64);

impl fmt::Display for Dollars {
    fn fmt<W: fmt::Write>(&self, f: &mut fmt::Formatter<W>) -> fmt::Result {
        let dollars = self.0 / 1_000;
        let rest = self.0 % 1_000;
        write!(f, "${dollars}.{rest:03}")
    }
}

/// A price in dollars, or none.
#[derive(Clone, Copy)]
pub struct Price(pub Option<u32>);

impl fmt::Display for Price {
    fn fmt<W: fmt::Write>(&self, f: &mut fmt::Formatter<W>) -> fmt::Result {
        match self.0 {
            Some(mills) => write!(f, "{}", Dollars(u64::from(mills))),
            None => write!(f, "none"),
        }
    }
}

/// A plain value in words.
#[derive(Clone, Copy)]
pub struct Words<T>(pub T);

impl fmt::Display for Words<Side> {
    fn fmt<W: fmt::Write>(&self, f: &mut fmt::Formatter<W>) -> fmt::Result {
        match self.0 {
            Side::Buy => write!(f, "buy"),
            Side::Sell => write!(f, "sell"),
        }
    }
}

impl fmt::Display for Words<OrderKind> {
    fn fmt<W: fmt::Write>(&self, f: &mut fmt::Formatter<W>) -> fmt::Result {
        match self.0 {
            OrderKind::Rpi => write!(f, "RPI"),
            OrderKind::Hidden => write!(f, "hidden"),
            OrderKind::Displayed => write!(f, "displayed"),
        }
    }
}

impl fmt::Display for Words<PhaseEvent> {
    fn fmt<W: fmt::Write>(&self, f: &mut fmt::Formatter<W>) -> fmt::Result {
        match self.0 {
            PhaseEvent::Opening => write!(f, "opens"),
            PhaseEvent::Halting => write!(f, "is halted"),
            PhaseEvent::Closing => write!(f, "closes"),
        }
    }
}

impl fmt::Display for Words<Identifier> {
    fn fmt<W: fmt::Write>(&self, f: &mut fmt::Formatter<W>) -> fmt::Result {
        match self.0 {
            Identifier::Neither => write!(f, "none"),
            Identifier::Buys => write!(f, "buys"),
            Identifier::Sells => write!(f, "sells"),
            Identifier::Both => write!(f, "buys and sells"),
        }
    }
}

impl fmt::Display for Standing {
    fn fmt<W: fmt::Write>(&self, f: &mut fmt::Formatter<W>) -> fmt::Result {
        match *self {
            Standing::NoPrice => write!(f, "no price, not eligible"),
            Standing::Ineligible(mills) => write!(
                f,
                "ranked at {}, not eligible",
                Price(Some(mills))
            ),
            Standing::Eligible(mills) => write!(f, "ranked at {}, eligible", Price(Some(mills))),
        }
    }
}

/// What an order asks for.
#[derive(Clone, Copy)]
pub(crate) struct Terms(pub(crate) NewOrder);

impl From<RestingOrder> for Terms {
    ghost from_gives = { λ order terms. terms ≡ terms_of order };

    fn from(order: RestingOrder) -> Terms {
        let RestingOrder {
            member,
            side,
            kind,
            limit,
            offset,
            shares,
            ..
        } = order;
        Terms(NewOrder {
            member,
            side,
            kind,
            limit,
            offset,
            shares,
        })
    }
}

impl fmt::Display for Terms {
    fn fmt<W: fmt::Write>(&self, f: &mut fmt::Formatter<W>) -> fmt::Result {
        let NewOrder {
            side,
            kind,
            limit,
            offset,
            shares,
            ..
        } = self.0;
        let limit = Price(Some(limit));
        write!(f, "{} {} of {shares}", Words(kind), Words(side))?;
        let Some(mills) = offset else {
            return write!(f, " at {limit}");
        };
        let offset = Price(Some(mills));
        match side {
            Side::Buy => write!(f, ", {offset} over the bid up to {limit}"),
            Side::Sell => write!(f, ", {offset} under the offer down to {limit}"),
        }
    }
}

/// A Retail Order that a member sends.
#[derive(Clone, Copy)]
pub struct Sent(pub RetailOrder);

impl fmt::Display for Sent {
    fn fmt<W: fmt::Write>(&self, f: &mut fmt::Formatter<W>) -> fmt::Result {
        let RetailOrder {
            member,
            side,
            kind,
            limit,
            shares,
        } = self.0;
        let kind = match kind {
            RetailType::One => "Type 1",
            RetailType::Two => "Type 2",
            RetailType::TwoRoutable => "routable Type 2",
        };
        let bound = match side {
            Side::Buy => "less",
            Side::Sell => "more",
        };
        let side = Words(side);
        let limit = Price(Some(limit));
        write!(
            f,
            "Member {member} sends a Retail {side} of {kind}, {shares} shares at {limit} or {bound}"
        )
    }
}
