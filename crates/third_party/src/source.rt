//! A source of quotes over any other, which counts what it is told.

ghost use Rattle.std.specs.Prelude.{◌≡◌, ℕ, map};
ghost use Rattle.venue.specs.Answers.{call_of};
ghost use Rattle.venue.specs.Runs.{RunKeeps};

use quotes::passing::Filter;
use quotes::search::Searchable;
use quotes::source::QuoteSource;
use std::alloc::{AllocError, Global};
use terms::calls::Call;
use terms::market::{Quote, QuoteUpdate, Side};
use terms::orders::Fill;
use terms::refusals::Refusal;
use venue::runs::{Outcome, run};

/// A source that passes on what it is told and asked to another, and counts the tells and calls.
#[derive(Drop)]
pub struct CountingSource<S> {
    inner: S,
    told: u64,
}

impl<S: QuoteSource> CountingSource<S> {
    /// A source over another, which has counted nothing.
    pub fn new(inner: S) -> Self
        ensures inner { result.inner ≡ inner }
        ensures told { result.told ≡ 0 }
    {
        CountingSource { inner, told: 0 }
    }

    /// How often it was told something, refused tells and calls among them.
    pub fn told(&self) -> u64
        ensures { result ≡ self.now.told }
    {
        self.told
    }

    // Counts once more.
    fn count(&mut self)
        ensures { self.new.inner ≡ self.old.inner }
    {
        let told = &mut self.told;
        *told = told.wrapping_add(1);
    }
}

impl<S: QuoteSource> Searchable for CountingSource<S> {
    ghost finds = { λ s. S.finds s.inner };

    fn best_passing<F: Filter>(&self, filter: &F) -> (Option<u32>, Option<u32>) {
        self.inner.best_passing(filter)
    }
}

// What it means is what the other source means, whatever it has counted.
impl<S: QuoteSource> QuoteSource for CountingSource<S> {
    const CENTRES: usize = S::CENTRES;

    type Call = S::Call;

    ghost centres = { S.centres };

    ghost means = { λ s. S.means s.inner };

    ghost denotes = { S.denotes };

    fn centre_count() -> u32 {
        S::centre_count()
    }

    fn tell(&mut self, update: QuoteUpdate) -> Result<(), Refusal> {
        self.count();
        self.inner.tell(update)
    }

    fn ask(&self, centre: u32, side: Side) -> Option<Quote> {
        self.inner.ask(centre, side)
    }

    fn best(&self) -> (Option<u32>, Option<u32>) {
        self.inner.best()
    }

    fn tell_call(update: QuoteUpdate) -> S::Call {
        S::tell_call(update)
    }

    fn apply(&mut self, call: S::Call) -> Result<(), Refusal> {
        self.count();
        self.inner.apply(call)
    }

    ghost finds_best = { λ s passes. S.finds_best s.inner passes };
}

/// A run of any list of calls over it keeps the whole law, as a run over every source does.
pub fn run_over<S: QuoteSource>(
    heap: Global,
    source: &mut CountingSource<S>,
    out: &mut [Fill],
    calls: &[Call<S::Call>],
) -> Result<Outcome, AllocError>
    ensures { RunKeeps S.centres (S.means source.old.inner) out.old (map (call_of S.denotes) calls.now) (S.means source.new.inner) out.new result }
{
    run(heap, source, out, calls)
}
