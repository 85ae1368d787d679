//! The texts that the tour prints: the lines above a morning's events, and quotes and book after each event.

use crate::customers::{customer, stand};
use crate::words::{Price, Terms, Words};
use book::ledger::Book;
use quotes::source::{QuoteSource, protected_quotes};
use std::fmt;

/// The lines above a morning's events.
pub const HEAD: &str = "\
A morning in one security, as the venue's quotes and its book follow it.
There are market centres 0 to 31, and a quote of fewer than 100 shares is not shown.
After each event a Retail sell of Type 1 at $10.000 or more and a Retail buy of Type 2 at
$10.060 or less are held against the resting orders.";

/// The protected quotes, what the book holds, and how each resting order up to a number stands at the quotes.
#[derive(Drop)]
pub struct Market<'a, S> {
    pub book: &'a Book,
    pub quotes: &'a S,
    pub last_number: u32,
}

impl<S: QuoteSource> fmt::Display for Market<'_, S> {
    fn fmt<W: fmt::Write>(&self, f: &mut fmt::Formatter<W>) -> fmt::Result {
        let best = protected_quotes(self.quotes);
        let bid = Price(best.0);
        let offer = Price(best.1);
        let count = self.book.resting_count();
        let approved = self.book.approved_count();
        let interest = Words(self.book.identifier(self.quotes));
        writeln!(f, "    Protected bid {bid}, protected offer {offer}.")?;
        write!(
            f,
            "    Resting orders: {count}. Approved members: {approved}. RPI interest: {interest}."
        )?;
        for number in 1..=self.last_number {
            if let Some(order) = self.book.order(number) {
                let terms = Terms::from(order);
                let standing = stand(best, customer(order.side), order);
                write!(f, "\n    Order {number}, {terms}: {standing}.")?;
            }
        }
        Ok(())
    }
}
