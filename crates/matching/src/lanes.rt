//! The three queues of a side, as a Retail Order goes down them.

ghost use Rattle.std.specs.Prelude.{◌≡◌, List};
ghost use Rattle.terms.specs.declared.orders.Ranked.{Ranked as Worth};
ghost use Rattle.matching.specs.Turns.{GiveAll, Turn, leads_by};

use crate::lane::Lane;
use ranking::is_ahead;
use terms::market::Side;
use terms::orders::{Ranked, RestingOrder};

// Whether the first of two heads is filled first, or there is no second.
fn leads(customer: Side, head: Option<Ranked>, other: Option<Ranked>) -> bool
    ensures { result ≡ leads_by customer head other }
{
    other.is_none_or(|b| head.is_some_and(|a| is_ahead(customer, a, b)))
}

/// The three queues of a side: the orders count alike in the first two, and otherwise in the third.
#[derive(Drop)]
pub(crate) struct Lanes<'a, F, G> {
    pub fixed: Lane<'a, F>,
    pub following: Lane<'a, F>,
    pub by_offset: Lane<'a, G>,
}

impl<'a, F, G> Lanes<'a, F, G>
where
    F: Fn(&RestingOrder) -> Option<Ranked>,
    G: Fn(&RestingOrder) -> Option<Ranked>,
{
    /// Takes the first of the three heads, and goes on to the next of its queue.
    pub(crate) fn take(&mut self, customer: Side) -> Option<Ranked>
        requires fixed { F.IsAlwaysCallable self.old.fixed.counts }
        requires following { F.IsAlwaysCallable self.old.following.counts }
        requires by_offset { G.IsAlwaysCallable self.old.by_offset.counts }
        ensures counts_fixed { self.new.fixed.counts ≡ self.old.fixed.counts }
        ensures counts_following { self.new.following.counts ≡ self.old.following.counts }
        ensures counts_by_offset { self.new.by_offset.counts ≡ self.old.by_offset.counts }
        ensures turn { (xs ys zs : List Worth) → GiveAll F.post G.post customer self.old xs ys zs → Turn F.post G.post customer xs ys zs result self.new }
    {
        if leads(customer, self.fixed.head, self.following.head) {
            if leads(customer, self.fixed.head, self.by_offset.head) {
                return self.fixed.take();
            }
        } else if leads(customer, self.following.head, self.by_offset.head) {
            return self.following.take();
        }
        self.by_offset.take()
    }
}
