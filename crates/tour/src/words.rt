//! The venue's answers and the fills, in the words of the desk.

use crate::customers::saved;
use book::answers::Remainder;
use desk::words::{Dollars, Price};
use std::fmt;
use terms::market::Side;
use terms::orders::Fill;
use venue::answers::Answer;

/// What becomes of the shares that are not filled.
#[derive(Clone, Copy)]
pub struct Rest(pub Remainder);

impl fmt::Display for Rest {
    fn fmt<W: fmt::Write>(&self, f: &mut fmt::Formatter<W>) -> fmt::Result {
        match self.0 {
            Remainder::Nothing => Ok(()),
            Remainder::Cancelled(shares) => write!(f, ", {shares} cancelled"),
            Remainder::Waiting(shares) => write!(f, ", {shares} wait to be routed away"),
        }
    }
}

/// What the venue answers to a call that it takes.
#[derive(Clone, Copy)]
pub struct Answered(pub Answer);

impl fmt::Display for Answered {
    fn fmt<W: fmt::Write>(&self, f: &mut fmt::Formatter<W>) -> fmt::Result {
        match self.0 {
            Answer::Done => write!(f, "accepted"),
            Answer::Entered(entry) => write!(
                f,
                "accepted, {} shares rest as order {}",
                entry.shares, entry.number
            ),
            Answer::Cancelled(cancel) => write!(
                f,
                "accepted, {} shares of order {} cancelled",
                cancel.shares, cancel.number
            ),
            Answer::Traded(trade) => write!(
                f,
                "accepted as order {}, {} filled{}",
                trade.number,
                trade.filled,
                Rest(trade.remainder)
            ),
            Answer::Drawn { shares, .. } => write!(f, "accepted, {shares} shares are out"),
            Answer::Returned(back) => write!(
                f,
                "accepted, {} executed away, {} cancelled",
                back.away, back.cancelled
            ),
        }
    }
}

/// A fill of a Retail Order, and the protected quote that the order looked at.
#[derive(Clone, Copy)]
pub struct Filled {
    pub fill: Fill,
    pub customer: Side,
    pub quote: Option<u32>,
}

impl fmt::Display for Filled {
    fn fmt<W: fmt::Write>(&self, f: &mut fmt::Formatter<W>) -> fmt::Result {
        let Fill {
            number,
            price,
            shares,
        } = self.fill;
        let price = Price(Some(price));
        let side = match self.customer {
            Side::Buy => "offer",
            Side::Sell => "bid",
        };
        write!(
            f,
            "Filled from order {number}: {shares} shares at {price}, "
        )?;
        let Some(mills) = self.quote else {
            return write!(f, "with no protected {side}");
        };
        let quote = Price(Some(mills));
        match saved(self.customer, mills, self.fill) {
            Some(0) => write!(f, "as good as the protected {side} of {quote}"),
            Some(amount) => {
                let amount = Dollars(amount);
                write!(f, "{amount} better than at the protected {side} of {quote}")
            }
            None => write!(f, "worse than the protected {side} of {quote}"),
        }
    }
}
