//! How far down a queue a Retail Order has to go: no order after the part that it is given counts.

ghost use Rattle.std.specs.Prelude.{◌≡◌, ◌-◌, ◌^◌, min};
ghost use Rattle.matching.specs.Reach.{Reaches, off_price, worst_price, within_limit, within_offset};

use ranking::{BestPair, is_better, opposite_side, own_side};
use terms::market::Side;
use terms::orders::{RestingOrder, RetailOrder};

// The worst price at which a Retail Order meets anything: its limit, or a protected quote that is better for the customer.
fn worst_price(best: BestPair, order: RetailOrder) -> u32
    ensures { result ≡ worst_price best order }
{
    own_side(best, opposite_side(order.side))
        .filter(|quote| is_better(order.side, *quote, order.limit))
        .unwrap_or(order.limit)
}

/// The orders at the front of a queue by limit whose limits are no worse than the worst price.
pub(crate) fn within_limit(
    queue: &[RestingOrder],
    best: BestPair,
    order: RetailOrder,
) -> &[RestingOrder]
    ensures { Reaches (within_limit best order) queue.now result.now }
{
    let worst = worst_price(best, order);
    let reach = queue.partition_point(|resting| !is_better(order.side, worst, resting.limit));
    &queue[..reach]
}

// The price off a quote by an offset, towards the other side of the market, or the highest that a u32 holds if it is higher.
fn off_price(side: Side, quote: u32, offset: u32) -> u32
    ensures { result ≡ min (off_price side quote offset) (2 ^ 32 - 1) }
{
    match side {
        Side::Buy => quote.saturating_add(offset),
        Side::Sell => quote.saturating_sub(offset),
    }
}

/// The orders at the front of a queue by offset whose prices off the protected quote are no worse than the limit.
pub(crate) fn within_offset(
    queue: &[RestingOrder],
    best: BestPair,
    order: RetailOrder,
) -> &[RestingOrder]
    ensures { Reaches (within_offset best order) queue.now result.now }
{
    let met = opposite_side(order.side);
    let Some(quote) = own_side(best, met) else {
        return &queue[..0];
    };
    let reach = queue.partition_point(|resting| {
        let price = off_price(met, quote, resting.offset.unwrap_or(0));
        !is_better(order.side, order.limit, price)
    });
    &queue[..reach]
}
