//! One side of the book.

ghost use Rattle.std.specs.Prelude.{◌≡◌, ◌+◌, ◌<◌, ◌≤◌, true, [], ◌∷◌, ◌++◌, length, IfOk, if◌then◌else◌, vec_len, ◌≢◌, nat_eq, nat_le};
ghost use Rattle.std.specs.List.{AllByRecursion as Each};
ghost use Rattle.rules.specs.Lists.{any, found, insert, picked, present, sort};
ghost use Rattle.rules.specs.Rules.{after_fill};
ghost use Rattle.queues.specs.Queues.{first_by_limit, first_by_offset, every, is_lined, unless_number, rpi_interest};

use crate::queue::{Queue, stands_by_limit, stands_by_offset};
use ranking::BestPair;
use std::alloc::{AllocError, Global};
use terms::market::Side;
use terms::orders::{Fill, RestingOrder};

/// The most orders that rest in a book, and so on a side of it.
pub const MAX_RESTING: usize = 256;

/// The resting orders of one side in three sorted queues: those without an offset by limit, those that follow the quote by
/// ceiling or floor, and the latter once more by offset.
// Form: three lists and no map, since each is read in its own order, and no call of the book allocates.
#[derive(Drop)]
pub struct SideQueues {
    side: Side,
    fixed: Queue,
    following: Queue,
    by_offset: Queue,

    // No order of the first queue has an offset, each order of the second has one, and both stand by limit; all are of this
    // side, and no two have one number.
    ghost lined: { is_lined side fixed.items following.items ≡ true },

    // The third queue is the second again, by offset.
    ghost again: { by_offset.items ≡ sort first_by_offset following.items },

    // Each order has a share or more.
    ghost some: { every (λ o. nat_le 1 o.shares) (fixed.items ++ following.items) ≡ true },

    // There are no more than may rest in a book.
    ghost few: { vec_len fixed + vec_len following ≤ 256 },
}

impl SideQueues {
    ghost use Rattle.queues.specs.Sides.{orders_of};

    /// A side without orders, and with room for all that may rest.
    pub fn new(heap: Global, side: Side) -> Result<Self, AllocError>
        ensures { IfOk result (λ q. (q.side ≡ side) × (q.fixed.items ≡ []) × (q.following.items ≡ [])) }
    {
        let fixed = Queue::new(heap)?;
        let following = Queue::new(heap)?;
        let by_offset = Queue::new(heap)?;
        Ok(SideQueues {
            side,
            fixed,
            following,
            by_offset,
        })
    }

    /// How many orders rest on this side.
    pub fn len(&self) -> usize
        ensures { result ≡ length (orders_of self.now) }
    {
        self.fixed.len() + self.following.len()
    }

    /// The orders without an offset, by limit.
    pub fn fixed(&self) -> &[RestingOrder]
        ensures { result.now ≡ self.now.fixed.items }
    {
        self.fixed.orders()
    }

    /// The orders with an offset, by ceiling or floor.
    pub fn following(&self) -> &[RestingOrder]
        ensures { result.now ≡ self.now.following.items }
    {
        self.following.orders()
    }

    /// The same orders by offset.
    pub fn by_offset(&self) -> &[RestingOrder]
        ensures { result.now ≡ self.now.by_offset.items }
    {
        self.by_offset.orders()
    }

    /// The order of a number.
    pub fn find(&self, number: u32) -> Option<RestingOrder>
        ensures { result ≡ found (λ o. nat_eq o.number number) (orders_of self.now) }
    {
        self.fixed
            .find(number)
            .or_else(|| self.following.find(number))
    }

    /// Whether some order of this side is RPI interest that a Retail Order would find eligible, whatever its limit.
    pub fn has_rpi_interest(&self, best: BestPair) -> bool
        ensures { result ≡ any (rpi_interest best) (orders_of self.now) }
    {
        self.fixed.has_rpi_interest(best) || self.following.has_rpi_interest(best)
    }

    /// A new order takes its places.
    // Form: each change says that the side stays, since the side is a value, so that one type serves both sides.
    pub fn enter(&mut self, order: RestingOrder)
        requires side { order.side ≡ self.old.side }
        requires few { length (orders_of self.old) < 256 }
        requires some { 1 ≤ order.shares }
        requires fresh { Each (λ o. o.number ≢ order.number) (orders_of self.old) }
        ensures side { self.new.side ≡ self.old.side }
        ensures fixed { self.new.fixed.items ≡ (if present order.offset then self.old.fixed.items else insert (first_by_limit self.old.side) order self.old.fixed.items) }
        ensures following { self.new.following.items ≡ (if present order.offset then insert (first_by_limit self.old.side) order self.old.following.items else self.old.following.items) }
    {
        let side = self.side;
        let by_limit = |a, b| stands_by_limit(side, a, b);
        match order.offset {
            None => self.fixed.place(order, by_limit),
            Some(_) => {
                self.following.place(order, by_limit);
                self.by_offset.place(order, stands_by_offset);
            }
        }
    }

    /// The order of a number leaves its places; the others keep theirs.
    pub fn remove(&mut self, number: u32)
        ensures side { self.new.side ≡ self.old.side }
        ensures fixed { self.new.fixed.items ≡ picked (unless_number number) self.old.fixed.items }
        ensures following { self.new.following.items ≡ picked (unless_number number) self.old.following.items }
        ensures by_offset { self.new.by_offset.items ≡ picked (unless_number number) self.old.by_offset.items }
    {
        if !self.fixed.remove(number) {
            self.following.remove(number);
            self.by_offset.remove(number);
        }
    }

    /// Takes fills off the orders of this side: those filled whole leave every queue, the others keep their places.
    pub fn settle(&mut self, fills: &[Fill])
        ensures side { self.new.side ≡ self.old.side }
        ensures fixed { self.new.fixed.items ≡ picked (after_fill fills.now) self.old.fixed.items }
        ensures following { self.new.following.items ≡ picked (after_fill fills.now) self.old.following.items }
        ensures by_offset { self.new.by_offset.items ≡ picked (after_fill fills.now) self.old.by_offset.items }
    {
        for fill in fills {
            self.give(*fill);
        }
    }

    // Takes one fill off the order of its number, in every queue that it stands in.
    fn give(&mut self, fill: Fill)
        ensures side { self.new.side ≡ self.old.side }
        ensures fixed { self.new.fixed.items ≡ picked (after_fill (fill ∷ [])) self.old.fixed.items }
        ensures following { self.new.following.items ≡ picked (after_fill (fill ∷ [])) self.old.following.items }
        ensures by_offset { self.new.by_offset.items ≡ picked (after_fill (fill ∷ [])) self.old.by_offset.items }
    {
        if !self.fixed.give(fill) {
            self.following.give(fill);
            self.by_offset.give(fill);
        }
    }
}
