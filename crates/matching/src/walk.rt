//! The walk of a Retail Order down the three queues of a side.

ghost use Rattle.std.specs.Prelude.{◌≡◌, ◌≤◌, ◌++◌, List, length};
ghost use Rattle.terms.specs.declared.orders.Ranked.{Ranked as Worth};
ghost use Rattle.rules.specs.Rules.{along, eligible, fills};
ghost use Rattle.matching.specs.Lanes.{at_limit, counted, off_limit};
ghost use Rattle.matching.specs.Turns.{GiveAll, merged};
ghost use Rattle.matching.specs.Walks.{Written, FillAnswer};

use crate::lane::Lane;
use crate::lanes::Lanes;
use crate::reach::{within_limit, within_offset};
use queues::side::{MAX_RESTING, SideQueues};
use ranking::{BestPair, eligible_order};
use terms::market::Side;
use terms::orders::{Fill, Ranked, RestingOrder, RetailOrder};
use terms::refusals::Refusal;

/// A list for fills has at least so many places, one for each order that may rest.
pub const LEAST_FILL_PLACES: usize = MAX_RESTING;

/// How many fills were written, and their shares in all.
// Form: a count and no slice: of a part of `out` lent in the result no clause could say what stands after it.
#[derive(Clone, Copy, PartialEq, Eq, Debug)]
pub struct Matched {
    pub fills: usize,
    pub shares: u32,
}

// Fills so many shares from three lanes.
fn walk<F, G>(customer: Side, shares: u32, mut lanes: Lanes<F, G>, out: &mut [Fill]) -> Matched
where
    F: Fn(&RestingOrder) -> Option<Ranked>,
    G: Fn(&RestingOrder) -> Option<Ranked>,
    requires fixed { F.IsAlwaysCallable lanes.fixed.counts }
    requires following { F.IsAlwaysCallable lanes.following.counts }
    requires by_offset { G.IsAlwaysCallable lanes.by_offset.counts }
    ensures { (xs ys zs : List Worth) → GiveAll F.post G.post customer lanes.entry xs ys zs → length (along (merged customer xs ys zs) shares) ≤ length out.old → Written (along (merged customer xs ys zs) shares) out.old out.new result }
{
    let mut left = shares;
    let mut written = 0;
    // Form: the fills are counted by hand, since `enumerate` gives no count once the loop is left.
    for place in out.iter_mut() {
        if left == 0 {
            break;
        }
        let Some(first) = lanes.take(customer) else {
            break;
        };
        let given = left.min(first.shares);
        *place = Fill {
            number: first.number,
            price: first.price,
            shares: given,
        };
        written += 1;
        left -= given;
    }
    Matched {
        fills: written,
        shares: shares - left,
    }
}

/// Writes the fills that a Retail Order has from a side, at the protected quotes, to the front of a list of at least 256
/// places.
pub fn fill_from(
    queues: &SideQueues,
    best: BestPair,
    order: RetailOrder,
    out: &mut [Fill],
) -> Result<Matched, Refusal>
    ensures { FillAnswer (fills order.side (eligible best order (queues.now.fixed.items ++ queues.now.following.items)) order.shares) out.old out.new result }
{
    if out.len() < LEAST_FILL_PLACES {
        return Err(Refusal::ShortFillList);
    }
    // Each eligible order counts once: in the first two queues at its limit, ceiling or floor, in the third at any
    // other price.
    let at_limit = |resting: &RestingOrder| -> Option<Ranked>
        ensures { result ≡ counted at_limit best order resting.now }
    { eligible_order(best, order, *resting).filter(|ranked| ranked.price == resting.limit) };
    let off_limit = |resting: &RestingOrder| -> Option<Ranked>
        ensures { result ≡ counted off_limit best order resting.now }
    { eligible_order(best, order, *resting).filter(|ranked| ranked.price != resting.limit) };
    let lanes = Lanes {
        fixed: Lane::new(within_limit(queues.fixed(), best, order), at_limit),
        following: Lane::new(within_limit(queues.following(), best, order), at_limit),
        by_offset: Lane::new(within_offset(queues.by_offset(), best, order), off_limit),
    };
    Ok(walk(order.side, order.shares, lanes, out))
}
