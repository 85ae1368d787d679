//! A source of quotes that borrows another: what it is told, it tells the other.

ghost use Rattle.std.specs.Prelude.{◌≡◌, ◌≤◌};
ghost use Rattle.terms.specs.declared.market.QuoteCall.TheVariants.{Tell};

use quotes::passing::Filter;
use quotes::search::Searchable;
use quotes::source::QuoteSource;
use terms::market::{Quote, QuoteUpdate, Side};
use terms::refusals::Refusal;

/// A source that stands for another as long as it borrows it, and passes on all that it is told and asked.
#[derive(Drop)]
pub struct LentSource<'a, S> {
    lent: &'a mut S,
}

impl<'a, S: QuoteSource> LentSource<'a, S> {
    /// A source that stands for another.
    pub fn new(lent: &'a mut S) -> Self
        ensures { result.lent.now ≡ lent.old }
    {
        LentSource { lent }
    }
}

impl<'a, S: QuoteSource> Searchable for LentSource<'a, S> {
    ghost finds = { λ s. S.finds s.lent.now };

    fn best_passing<F: Filter>(&self, filter: &F) -> (Option<u32>, Option<u32>) {
        self.lent.best_passing(filter)
    }
}

// It means what the source that it borrows means. In an implementation by a type with a lifetime, a function without
// `self` repeats the clauses of the trait.
impl<'a, S: QuoteSource> QuoteSource for LentSource<'a, S> {
    const CENTRES: usize = S::CENTRES;

    type Call = S::Call;

    ghost centres = { S.centres };

    ghost means = { λ s. S.means s.lent.now };

    ghost denotes = { S.denotes };

    fn centre_count() -> u32
        ensures value { result ≡ S.centres }
        ensures some { 1 ≤ result }
        ensures few { result ≤ 64 }
    {
        S::centre_count()
    }

    fn tell(&mut self, update: QuoteUpdate) -> Result<(), Refusal> {
        self.lent.tell(update)
    }

    fn ask(&self, centre: u32, side: Side) -> Option<Quote> {
        self.lent.ask(centre, side)
    }

    fn best(&self) -> (Option<u32>, Option<u32>) {
        self.lent.best()
    }

    fn tell_call(update: QuoteUpdate) -> S::Call
        ensures { S.denotes result ≡ Tell update }
    {
        S::tell_call(update)
    }

    fn apply(&mut self, call: S::Call) -> Result<(), Refusal> {
        self.lent.apply(call)
    }

    ghost finds_best = { λ s passes. S.finds_best s.lent.now passes };
}
