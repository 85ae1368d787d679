//! The tournament tree, a source of quotes: it keeps the winner of each pair of market centres at their parent, up to
//! the root.
#![tactic(auto)]

mod tournament;

ghost use Rattle.std.specs.Prelude.{◌≡◌, ℕ, ◌≤◌, refl};
ghost use Rattle.terms.specs.declared.market.QuoteCall.TheVariants.{Tell};
ghost use Rattle.terms.specs.declared.market.Side.TheVariants.{Buy, Sell};
ghost use Rattle.quotes.specs.Quotes.{no_quotes};
ghost use Rattle.quotes.specs.Filters.{best_passing};
ghost use Rattle.tournament_tree.specs.Tournament.{tree_means};

use crate::tournament::{FIRST_LEAF, Tournament};
use quotes::passing::Filter;
use quotes::search::Searchable;
use quotes::source::QuoteSource;
use quotes::tells::told_quote;
use terms::market::{Quote, QuoteUpdate, Side};
use terms::refusals::Refusal;

/// A tournament for each side between 16 market centres.
#[derive(Drop)]
pub struct TournamentTree {
    bids: Tournament,
    offers: Tournament,
    ghost bidding: { bids.side ≡ Buy },
    ghost offering: { offers.side ≡ Sell },
}

impl TournamentTree {
    /// A tree that was told nothing.
    pub fn new() -> Self
        ensures { tree_means result.bids.places result.offers.places ≡ no_quotes }
    {
        TournamentTree {
            bids: Tournament::new(Side::Buy),
            offers: Tournament::new(Side::Sell),
        }
    }
}

impl Searchable for TournamentTree {
    ghost finds = { λ t passes. best_passing passes 16 (tree_means t.bids.places t.offers.places) };

    fn best_passing<F: Filter>(&self, filter: &F) -> (Option<u32>, Option<u32>) {
        (
            self.bids.best_passing(filter),
            self.offers.best_passing(filter),
        )
    }
}

impl QuoteSource for TournamentTree {
    const CENTRES: usize = FIRST_LEAF;

    type Call = QuoteUpdate;

    ghost centres = { 16 };

    ghost means = { λ t. tree_means t.bids.places t.offers.places };

    ghost denotes = { Tell };

    fn centre_count() -> u32 {
        Self::CENTRES as u32
    }

    fn tell(&mut self, update: QuoteUpdate) -> Result<(), Refusal> {
        let quote = told_quote(Self::CENTRES, update)?;
        let centre = update.centre as usize;
        // Form: an arm for each side: of a `&mut` lent to either no clause can say that it keeps its side.
        match update.side {
            Side::Buy => self.bids.set(centre, quote),
            Side::Sell => self.offers.set(centre, quote),
        }
        Ok(())
    }

    fn ask(&self, centre: u32, side: Side) -> Option<Quote> {
        let tournament = match side {
            Side::Buy => &self.bids,
            Side::Sell => &self.offers,
        };
        tournament.quote(centre)
    }

    fn best(&self) -> (Option<u32>, Option<u32>) {
        (self.bids.best(), self.offers.best())
    }

    fn tell_call(update: QuoteUpdate) -> QuoteUpdate {
        update
    }

    fn apply(&mut self, call: QuoteUpdate) -> Result<(), Refusal> {
        self.tell(call)
    }

    ghost finds_best = { λ _ _. refl };
}
