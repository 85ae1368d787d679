//! The scan table, a source of quotes: it searches its market centres at each question.
#![tactic(auto)]

mod row;

ghost use Rattle.std.specs.Prelude.{◌≡◌, ℕ, ◌≤◌, refl};
ghost use Rattle.terms.specs.declared.market.QuoteCall.TheVariants.{Tell};
ghost use Rattle.quotes.specs.Quotes.{as_large_as, no_quotes, protected};
ghost use Rattle.quotes.specs.Filters.{best_passing};
ghost use Rattle.scan_table.specs.Rows.{scan_means};

use crate::row::Row;
use quotes::passing::{Both, Filter};
use quotes::prices::{leading_price, quoted_price};
use quotes::search::{Searchable, leader_after};
use quotes::source::QuoteSource;
use quotes::tells::told_quote;
use terms::market::{Quote, QuoteUpdate, Side};
use terms::refusals::Refusal;

const CENTRES: usize = 32;

/// A row of quotes for each of 32 market centres.
#[derive(Drop)]
pub struct ScanTable {
    rows: [Row; CENTRES],
}

impl ScanTable {
    /// A table that was told nothing.
    pub fn new() -> Self
        ensures { scan_means result.rows ≡ no_quotes }
    {
        ScanTable {
            rows: [Row {
                bid: None,
                offer: None,
            }; CENTRES],
        }
    }

    // The best price that is shown on a side.
    fn best_on(&self, side: Side) -> Option<u32>
        ensures { result ≡ protected 32 (scan_means self.now.rows) side }
    {
        let mut best = None;
        #[tactic(auto, unfolding(quotes::specs::Quotes::leader))]
        for row in &self.rows {
            best = leading_price(side, best, quoted_price(row.shows(side)));
        }
        best
    }
}

// The table's own lot, which is 1: a quote is shown if its size is a share or more.
#[derive(Clone, Copy)]
struct OneShare;

impl Filter for OneShare {
    ghost passes = { λ _ _ quote. as_large_as 1 quote };

    fn lets_through(&self, _centre: u32, quote: Quote) -> bool {
        quote.size >= 1
    }
}

impl Searchable for ScanTable {
    ghost finds = { λ s passes. best_passing passes 32 (scan_means s.rows) };

    fn best_passing<F: Filter>(&self, filter: &F) -> (Option<u32>, Option<u32>) {
        let shown = Both {
            first: &OneShare,
            second: filter,
        };
        let mut bid = None;
        let mut offer = None;
        for centre in 0..CENTRES as u32 {
            let row = &self.rows[centre as usize];
            bid = leader_after(Side::Buy, bid, &shown, centre, row.bid);
            offer = leader_after(Side::Sell, offer, &shown, centre, row.offer);
        }
        (bid, offer)
    }
}

impl QuoteSource for ScanTable {
    const CENTRES: usize = CENTRES;

    type Call = QuoteUpdate;

    ghost centres = { 32 };

    ghost means = { λ s. scan_means s.rows };

    ghost denotes = { Tell };

    fn centre_count() -> u32 {
        Self::CENTRES as u32
    }

    #[tactic(auto, using(crate::proofs::Tables::scan_told))]
    fn tell(&mut self, update: QuoteUpdate) -> Result<(), Refusal> {
        let quote = told_quote(Self::CENTRES, update)?;
        *self.rows[update.centre as usize].quote_mut(update.side) = quote;
        Ok(())
    }

    fn ask(&self, centre: u32, side: Side) -> Option<Quote> {
        self.rows.get(centre as usize)?.shows(side)
    }

    fn best(&self) -> (Option<u32>, Option<u32>) {
        (self.best_on(Side::Buy), self.best_on(Side::Sell))
    }

    fn tell_call(update: QuoteUpdate) -> QuoteUpdate {
        update
    }

    fn apply(&mut self, call: QuoteUpdate) -> Result<(), Refusal> {
        self.tell(call)
    }

    ghost finds_best = { λ _ _. refl };
}
