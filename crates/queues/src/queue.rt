//! One queue of resting orders: how an order is found in it, enters it and leaves it.

ghost use Rattle.std.specs.Prelude.{◌≡◌, ◌<◌, ◌≤◌, [], ◌∷◌, length, vec_capacity, IfOk, nat_eq, Vec as Items};
ghost use Rattle.std.specs.List.{AllByRecursion as Each, position};
ghost use Rattle.std.specs.declared.alloc.Global.{Global as Heap};
ghost use Rattle.terms.specs.declared.orders.RestingOrder.{RestingOrder as Order};
ghost use Rattle.rules.specs.Lists.{Distinct, any, found, picked};
ghost use Rattle.rules.specs.Rules.{after_fill};
ghost use Rattle.queues.specs.Queues.{Placed, first_by_limit, first_by_offset, rpi_interest, unless_number};

use crate::side::MAX_RESTING;
use ranking::{BestPair, is_ahead, is_rpi_interest, opposite_side, ranked_at};
use std::alloc::{AllocError, Global};
use std::marker::Model;
use terms::market::Side;
use terms::orders::{Fill, RestingOrder};

/// Resting orders in a sequence, with room for all that may rest. In a clause it is the `Vec` of them.
#[derive(Drop)]
pub(crate) struct Queue {
    orders: Vec<RestingOrder>,
}

impl Model for Queue {
    ghost Value = { Items Order Heap };

    ghost view = { λ q. q.orders };

    ghost invariant = { λ q. 256 ≤ vec_capacity q.orders };
}

impl Queue {
    /// No orders, and room for all that may rest.
    pub(crate) fn new(heap: Global) -> Result<Self, AllocError>
        ensures { IfOk result (λ q. q.items ≡ []) }
    {
        let orders = Vec::with_capacity(heap, MAX_RESTING)?;
        Ok(Queue { orders })
    }

    /// How many orders there are.
    pub(crate) fn len(&self) -> usize
        ensures { result ≡ length self.now.items }
    {
        self.orders.len()
    }

    /// The orders.
    pub(crate) fn orders(&self) -> &[RestingOrder]
        ensures { result.now ≡ self.now.items }
    {
        self.orders.as_slice()
    }

    /// The order of a number.
    pub(crate) fn find(&self, number: u32) -> Option<RestingOrder>
        ensures { result ≡ found (λ o. nat_eq o.number number) self.now.items }
    {
        self.orders
            .iter()
            .find(|order| order.number == number)
            .copied()
    }

    /// Whether some order is RPI interest that a Retail Order would find eligible, whatever its limit.
    pub(crate) fn has_rpi_interest(&self, best: BestPair) -> bool
        ensures { result ≡ any (rpi_interest best) self.now.items }
    {
        self.orders
            .iter()
            .any(|order| is_rpi_interest(best, *order))
    }

    /// An order takes its place among the orders, which are sorted; its place is found by halving.
    pub(crate) fn place<F: Fn(RestingOrder, RestingOrder) -> bool>(
        &mut self,
        order: RestingOrder,
        stands_before: F,
    )
        requires callable { F.IsAlwaysCallable stands_before }
        requires few { length self.old.items < 256 }
        ensures { Placed (λ a b r. F.post stands_before a b r) order self.old.items self.new.items }
    {
        let place = self
            .orders
            .partition_point(|other| !stands_before(order, *other));
        self.orders.insert(place, order).unwrap();
    }

    // Where the order of a number stands.
    fn place_of(&self, number: u32) -> Option<usize>
        ensures { result ≡ position (λ o. nat_eq o.number number) self.now.items }
    {
        self.orders.iter().position(|order| order.number == number)
    }

    /// The order of a number leaves, if it is here; the others keep their places. Says whether it was here.
    pub(crate) fn remove(&mut self, number: u32) -> bool
        requires apart { Distinct (λ o. o.number) self.old.items }
        ensures here { result ≡ any (λ o. nat_eq o.number number) self.old.items }
        ensures items { self.new.items ≡ picked (unless_number number) self.old.items }
    {
        let Some(place) = self.place_of(number) else {
            return false;
        };
        self.orders.remove(place);
        true
    }

    /// The order of a fill's number gives its shares, if it is here, and leaves if it is filled whole; the others keep their
    /// places. Says whether it was here.
    pub(crate) fn give(&mut self, fill: Fill) -> bool
        requires apart { Distinct (λ o. o.number) self.old.items }
        requires some { Each (λ o. 1 ≤ o.shares) self.old.items }
        ensures here { result ≡ any (λ o. nat_eq o.number fill.number) self.old.items }
        ensures items { self.new.items ≡ picked (after_fill (fill ∷ [])) self.old.items }
    {
        let Some(place) = self.place_of(fill.number) else {
            return false;
        };
        if self.orders[place].shares <= fill.shares {
            self.orders.remove(place);
        } else {
            self.orders[place].shares -= fill.shares;
        }
        true
    }
}

/// Whether an order of a side stands before another at their limits, the best for the customer first.
pub(crate) fn stands_by_limit(side: Side, a: RestingOrder, b: RestingOrder) -> bool
    ensures { result ≡ first_by_limit side a b }
{
    is_ahead(
        opposite_side(side),
        ranked_at(a, a.limit),
        ranked_at(b, b.limit),
    )
}

/// Whether an order stands before another at their offsets, the largest first.
pub(crate) fn stands_by_offset(a: RestingOrder, b: RestingOrder) -> bool
    ensures { result ≡ first_by_offset a b }
{
    is_ahead(
        Side::Sell,
        ranked_at(a, a.offset.unwrap_or(0)),
        ranked_at(b, b.offset.unwrap_or(0)),
    )
}
