//! The search that layers ask of what they stand on.

ghost use Rattle.std.specs.Prelude.{◌≡◌, ℕ, Bool, Option};
ghost use Rattle.terms.specs.declared.market.Quote.{Quote as Quoted};
ghost use Rattle.terms.specs.Words.{keep_if};
ghost use Rattle.quotes.specs.Quotes.{leading, price_of};
ghost use Rattle.quotes.specs.Filters.{leads_by};

use crate::passing::Filter;
use terms::market::{Quote, Side};

/// What can be searched for the best prices of the quotes that pass a filter. A layer asks this of what it stands on:
/// it hands down the filter that it was given together with its own, so that one search, in the table at the bottom,
/// serves a stack of any height.
pub trait Searchable {
    ghost finds: { Self → (ℕ → Quoted → Bool) → Option ℕ × Option ℕ };

    /// The best bid and the best offer among the quotes shown that a filter lets through.
    fn best_passing<F: Filter>(&self, filter: &F) -> (Option<u32>, Option<u32>)
        ensures { result ≡ finds self.now (F.passes filter.now) };
}

// Whether a price is better than the best so far on its side; where there is none so far, any price is.
fn leads(side: Side, best: Option<u32>, price: u32) -> bool
    ensures { result ≡ leads_by side best price }
{
    best.is_none_or(|leader| match side {
        Side::Buy => leader < price,
        Side::Sell => price < leader,
    })
}

/// The best price of a side after one more quote, which counts if a filter lets it through. The filter is asked only
/// of a quote that would lead.
pub fn leader_after<F: Filter>(
    side: Side,
    best: Option<u32>,
    filter: &F,
    centre: u32,
    quote: Option<Quote>,
) -> Option<u32>
    ensures { result ≡ leading side best (price_of (keep_if (F.passes filter.now centre) quote)) }
{
    if let Some(quote) = quote {
        if leads(side, best, quote.price) && filter.lets_through(centre, quote) {
            return Some(quote.price);
        }
    }
    best
}
