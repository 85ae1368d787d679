//! One queue, as a Retail Order goes down it.

ghost use Rattle.std.specs.Prelude.{◌≡◌, List};
ghost use Rattle.std.specs.Slice.Iter.{iter_rest};
ghost use Rattle.terms.specs.declared.orders.RestingOrder.{RestingOrder as Order};
ghost use Rattle.terms.specs.declared.orders.Ranked.{Ranked as Worth};
ghost use Rattle.std.specs.declared.option.Option.{Option};
ghost use Rattle.rules.specs.Lists.{picked};
ghost use Rattle.matching.specs.Lanes.{Computes, Gives, Sought, Took};

use std::mem;
use std::slice::Iter;
use terms::orders::{Ranked, RestingOrder};

// Goes on to the first order that counts.
fn seek<F: Fn(&RestingOrder) -> Option<Ranked>>(
    counts: &F,
    rest: &mut Iter<RestingOrder>,
) -> Option<Ranked>
    requires { F.IsAlwaysCallable counts.now }
    ensures { (f : Order → Option Worth) → Computes (F.post counts.now) f → Sought f (iter_rest rest.old) result (iter_rest rest.new) }
{
    rest.find_map(counts)
}

/// A queue with its head, that is, the next order that counts, and the orders after that.
// Form: that `counts` may be called stands in the clauses: a ghost field for it is refused, as it cites a bound on `Fn`.
#[derive(Drop)]
pub(crate) struct Lane<'a, F> {
    counts: F,
    rest: Iter<'a, RestingOrder>,
    pub head: Option<Ranked>,
}

impl<'a, F: Fn(&RestingOrder) -> Option<Ranked>> Lane<'a, F> {
    /// The whole queue lies ahead; `counts` gives an order as it is ranked, if it counts in this queue.
    pub(crate) fn new(queue: &'a [RestingOrder], counts: F) -> Lane<'a, F>
        requires { F.IsAlwaysCallable counts }
        ensures counts { result.counts ≡ counts }
        ensures gives { (f : Order → Option Worth) → Computes (F.post result.counts) f → Gives F.post result (picked f queue.now) }
    {
        let mut rest = queue.iter();
        let head = seek(&counts, &mut rest);
        Lane { counts, rest, head }
    }

    /// Takes the head, and goes on to the next.
    pub(crate) fn take(&mut self) -> Option<Ranked>
        requires { F.IsAlwaysCallable self.old.counts }
        ensures counts { self.new.counts ≡ self.old.counts }
        ensures head { result ≡ self.old.head }
        ensures gives { (xs : List Worth) → Gives F.post self.old xs → Took F.post self.new xs result }
    {
        let next = seek(&self.counts, &mut self.rest);
        mem::replace(&mut self.head, next)
    }
}
