//! The Retail Orders that are held against the resting orders.

ghost use Rattle.std.specs.Prelude.{◌≡◌};
ghost use Rattle.rules.specs.Lists.{present};
ghost use Rattle.rules.specs.Rules.{ranked_price, candidate, opposite};
ghost use Rattle.desk.specs.Customers.{held_against};
ghost use Rattle.desk.specs.Standings.{ranked_at, is_met};

use ranking::{BestPair, eligible_order, ranked_price};
use terms::market::Side;
use terms::orders::{RestingOrder, RetailOrder, RetailType};

// A Retail sell, for the buys, and a Retail buy, for the sells.
const RETAIL_SELL: RetailOrder = RetailOrder {
    member: 7,
    side: Side::Sell,
    kind: RetailType::One,
    limit: 10_000,
    shares: 800,
};

const RETAIL_BUY: RetailOrder = RetailOrder {
    member: 7,
    side: Side::Buy,
    kind: RetailType::Two,
    limit: 10_060,
    shares: 500,
};

/// Where a resting order is ranked, and whether a Retail Order meets it there.
#[derive(Clone, Copy)]
pub(crate) enum Standing {
    /// It follows a quote that is absent, so it has no price, and nothing meets it.
    NoPrice,
    /// It has a price, at which the Retail Order does not meet it.
    Ineligible(u32),
    /// It has a price, at which the Retail Order meets it.
    Eligible(u32),
}

/// How an order stands at the protected quotes against a Retail Order.
pub(crate) fn stand(best: BestPair, retail: RetailOrder, order: RestingOrder) -> Standing
    ensures price { ranked_at result ≡ ranked_price best order }
    ensures met { is_met result ≡ present (candidate best retail order) }
{
    match (
        ranked_price(best, order),
        eligible_order(best, retail, order),
    ) {
        (None, _) => Standing::NoPrice,
        (Some(price), None) => Standing::Ineligible(price),
        (Some(price), Some(_)) => Standing::Eligible(price),
    }
}

/// The Retail Order that is held against orders of a side; it is of the other.
pub(crate) fn customer(side: Side) -> RetailOrder
    ensures order { result ≡ held_against side }
    ensures other_side { result.side ≡ opposite side }
{
    match side {
        Side::Buy => RETAIL_SELL,
        Side::Sell => RETAIL_BUY,
    }
}
