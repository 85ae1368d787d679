//! Questions through a layer that holds back some of the quotes of the source below it.

ghost use Rattle.std.specs.Prelude.{◌≡◌, ℕ, ◌≤◌, Bool};
ghost use Rattle.terms.specs.declared.market.Quote.{Quote as Quoted};
ghost use Rattle.quotes.specs.Quotes.{Quotes, best_pair};
ghost use Rattle.quotes.specs.Filters.{asked_through, best_passing, ShowsWhatPasses};

use crate::passing::{Both, Filter};
use crate::source::QuoteSource;
use terms::market::{Quote, Side};

/// A filter of which it is known what a source means with it over it.
pub trait LayerFilter: Filter {
    ghost over: { Self → Quotes → Quotes };

    // What is let through of a source is what the source means with the filter over it.
    ghost shows_what_passes: { (filter : Self) → ShowsWhatPasses (Self.passes filter) (over filter) };
}

/// The quote that a centre shows through the filter.
// Form: here and below source and filter come apart, since a layer owns the two and lends them.
pub fn ask_through<S: QuoteSource, F: Filter>(
    below: &S,
    filter: &F,
    centre: u32,
    side: Side,
) -> Option<Quote>
    ensures answer { result ≡ asked_through (F.passes filter.now) S.centres (S.means below.now) centre side }
    ensures lot { 1 ≤ (S.means below.now).lot }
{
    below
        .ask(centre, side)
        .filter(|quote| filter.lets_through(centre, *quote))
}

/// The protected bid and the protected offer of a source with the filter over it.
pub fn best_pair_through<S: QuoteSource, F: LayerFilter>(
    below: &S,
    filter: &F,
) -> (Option<u32>, Option<u32>)
    ensures { result ≡ best_pair S.centres (F.over filter.now (S.means below.now)) }
{
    below.best_passing(filter)
}

/// The best bid and the best offer among the quotes of a source with a layer's filter over it that a further filter
/// lets through: the source is searched for what both let through.
pub fn best_passing_through<S: QuoteSource, F: LayerFilter, G: Filter>(
    below: &S,
    layer: &F,
    filter: &G,
) -> (Option<u32>, Option<u32>)
    ensures { result ≡ best_passing (G.passes filter.now) S.centres (F.over layer.now (S.means below.now)) }
{
    below.best_passing(&Both {
        first: layer,
        second: filter,
    })
}
