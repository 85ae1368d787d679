//! Prices that may be absent.

ghost use Rattle.std.specs.Prelude.{◌≡◌};
ghost use Rattle.quotes.specs.Quotes.{price_of, leading};

use terms::market::{Quote, Side};

/// The price of a quote, if there is one.
pub fn quoted_price(quote: Option<Quote>) -> Option<u32>
    ensures { result ≡ price_of quote }
{
    quote.map(|q| q.price)
}

/// Of two prices, either of which may be absent, the one that leads its side: the higher bid, the lower offer.
pub fn leading_price(side: Side, a: Option<u32>, b: Option<u32>) -> Option<u32>
    ensures { result ≡ leading side a b }
{
    match (a, b) {
        (Some(x), Some(y)) => Some(match side {
            Side::Buy => x.max(y),
            Side::Sell => x.min(y),
        }),
        _ => a.or(b),
    }
}
