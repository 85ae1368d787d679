//! What the fills of a Retail Order save its customer.

ghost use Rattle.std.specs.Prelude.{◌≡◌};
ghost use Rattle.rules.specs.Rules.{opposite, own_side};
ghost use Rattle.tour.specs.Savings.{saving};

use ranking::{BestPair, is_better, opposite_side, own_side};
use terms::market::Side;
use terms::orders::Fill;

/// The protected quote that a Retail Order looks at: the bid where it sells, the offer where it buys.
pub(crate) fn looked_at(best: BestPair, customer: Side) -> Option<u32>
    ensures { result ≡ own_side best (opposite customer) }
{
    own_side(best, opposite_side(customer))
}

/// What a fill saves a customer against a quote, in mills over all its shares: 0 at the quote, and none where its price is
/// worse. No fill of a Retail Order is worse than the protected quote.
pub(crate) fn saved(customer: Side, quote: u32, fill: Fill) -> Option<u64>
    ensures { result ≡ saving customer quote fill }
{
    let is_worse = is_better(customer, quote, fill.price);
    (!is_worse).then(|| u64::from(quote.abs_diff(fill.price)) * u64::from(fill.shares))
}
