//! The lot layer: quotes below a lot are not shown.
#![tactic(auto)]

ghost use Rattle.std.specs.Prelude.{ℕ, ◌≤◌, max, ◌≡◌, refl};
ghost use Rattle.quotes.specs.Quotes.{as_large_as, with_lot};
ghost use Rattle.quotes.specs.Filters.{best_passing};
ghost use Rattle.quotes.proofs.Layers.{lot_asked};

use quotes::filter::{LayerFilter, ask_through, best_pair_through, best_passing_through};
use quotes::passing::Filter;
use quotes::search::Searchable;
use quotes::source::{Excepting, QuoteSource};
use terms::market::{Quote, QuoteUpdate, Side};
use terms::refusals::Refusal;

/// The least size that is let through.
#[derive(Clone, Copy)]
struct Lot {
    shares: u32,
}

impl Filter for Lot {
    ghost passes = { λ lot _ quote. as_large_as lot.shares quote };

    fn lets_through(&self, _centre: u32, quote: Quote) -> bool {
        self.shares <= quote.size
    }
}

impl LayerFilter for Lot {
    ghost over = { λ lot. with_lot lot.shares };

    ghost shows_what_passes = { λ lot centres q. lot_asked centres q lot.shares };
}

/// A source of quotes over another, which shows a quote only if its size is at least the layer's own lot.
#[derive(Drop)]
pub struct LotLayer<S> {
    below: S,
    lot: Lot,
}

impl<S: QuoteSource> LotLayer<S> {
    /// A layer over a source; a lot of 0 counts as 1.
    pub fn new(below: S, lot: u32) -> Self
        ensures { with_lot result.lot.shares (S.means result.below) ≡ with_lot (max lot 1) (S.means below) }
    {
        LotLayer {
            below,
            lot: Lot { shares: lot.max(1) },
        }
    }
}

impl<S: QuoteSource> Searchable for LotLayer<S> {
    ghost finds = { λ s passes. best_passing passes S.centres (with_lot s.lot.shares (S.means s.below)) };

    fn best_passing<F: Filter>(&self, filter: &F) -> (Option<u32>, Option<u32>) {
        best_passing_through(&self.below, &self.lot, filter)
    }
}

// Form: one layer over any `Filter` is no plainer: this takes its source's calls, the exception layer its own.
impl<S: QuoteSource> QuoteSource for LotLayer<S> {
    const CENTRES: usize = S::CENTRES;

    type Call = S::Call;

    ghost centres = { S.centres };

    ghost means = { λ s. with_lot s.lot.shares (S.means s.below) };

    ghost denotes = { S.denotes };

    fn centre_count() -> u32 {
        S::centre_count()
    }

    fn tell(&mut self, update: QuoteUpdate) -> Result<(), Refusal> {
        self.below.tell(update)
    }

    fn ask(&self, centre: u32, side: Side) -> Option<Quote> {
        ask_through(&self.below, &self.lot, centre, side)
    }

    fn best(&self) -> (Option<u32>, Option<u32>) {
        best_pair_through(&self.below, &self.lot)
    }

    fn tell_call(update: QuoteUpdate) -> S::Call {
        S::tell_call(update)
    }

    fn apply(&mut self, call: S::Call) -> Result<(), Refusal> {
        self.below.apply(call)
    }

    ghost finds_best = { λ _ _. refl };
}

impl<S: Excepting> Excepting for LotLayer<S> {
    fn declare(&mut self, centre: u32) -> Result<(), Refusal> {
        self.below.declare(centre)
    }

    fn lift(&mut self, centre: u32) -> Result<(), Refusal> {
        self.below.lift(centre)
    }

    fn declare_call(centre: u32) -> S::Call {
        S::declare_call(centre)
    }

    fn lift_call(centre: u32) -> S::Call {
        S::lift_call(centre)
    }
}
