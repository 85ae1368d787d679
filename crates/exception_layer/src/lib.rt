//! The exception layer: centres that need not be honoured are not shown.
#![tactic(auto)]

ghost use Rattle.std.specs.Prelude.{◌≡◌, ℕ, ◌<◌, ◌≤◌, not, refl};
ghost use Rattle.quotes.specs.Quotes.{with_exceptions, no_centres, call_answer, after_call};
ghost use Rattle.quotes.specs.Filters.{best_passing};
ghost use Rattle.quotes.proofs.Layers.{exceptions_asked};
ghost use Rattle.exception_layer.specs.Marks.{set_of, mark_call};

use quotes::filter::{LayerFilter, ask_through, best_pair_through, best_passing_through};
use quotes::passing::Filter;
use quotes::search::Searchable;
use quotes::source::{Excepting, QuoteSource};
use terms::limits::MAX_CENTRES;
use terms::market::{Quote, QuoteCall, QuoteUpdate, Side};
use terms::refusals::Refusal;

/// A set of market centres, by a mark for each.
// Form: an array of marks: the library's sets allocate, which a source may not, and a word of bits is no plainer.
#[derive(Clone, Copy)]
struct CentreSet {
    marks: [bool; MAX_CENTRES],
}

impl CentreSet {
    // The set of no centre.
    fn new() -> Self
        ensures { set_of result.marks ≡ no_centres }
    {
        CentreSet {
            marks: [false; MAX_CENTRES],
        }
    }
}

/// The centres outside the set are let through.
impl Filter for CentreSet {
    ghost passes = { λ s centre _. not (set_of s.marks centre) };

    fn lets_through(&self, centre: u32, _quote: Quote) -> bool {
        self.marks
            .get(centre as usize)
            .is_none_or(|marked| !*marked)
    }
}

impl LayerFilter for CentreSet {
    ghost over = { λ s. with_exceptions (set_of s.marks) };

    ghost shows_what_passes = { λ s centres q. exceptions_asked centres q (set_of s.marks) };
}

/// A source of quotes over another, which shows no quote of the centres under an exception.
#[derive(Drop)]
pub struct ExceptionLayer<S> {
    below: S,
    own: CentreSet,
}

impl<S: QuoteSource> ExceptionLayer<S> {
    /// A layer over a source, with no exception of its own.
    pub fn new(below: S) -> Self
        ensures { with_exceptions (set_of result.own.marks) (S.means result.below) ≡ with_exceptions no_centres (S.means below) }
    {
        ExceptionLayer {
            below,
            own: CentreSet::new(),
        }
    }

    // Marks a centre, or takes its mark away.
    // Form: a flag, since it is the value that is written at the centre's place.
    fn mark(&mut self, centre: u32, mark: bool) -> Result<(), Refusal>
        ensures answer { result ≡ call_answer S.centres (mark_call mark centre) }
        ensures after { with_exceptions (set_of self.new.own.marks) (S.means self.new.below) ≡ after_call S.centres (with_exceptions (set_of self.old.own.marks) (S.means self.old.below)) (mark_call mark centre) }
    {
        if centre >= S::centre_count() {
            return Err(Refusal::OutOfRange);
        }
        self.own.marks[centre as usize] = mark;
        Ok(())
    }
}

impl<S: QuoteSource> Searchable for ExceptionLayer<S> {
    ghost finds = { λ s passes. best_passing passes S.centres (with_exceptions (set_of s.own.marks) (S.means s.below)) };

    fn best_passing<F: Filter>(&self, filter: &F) -> (Option<u32>, Option<u32>) {
        best_passing_through(&self.below, &self.own, filter)
    }
}

impl<S: QuoteSource> QuoteSource for ExceptionLayer<S> {
    const CENTRES: usize = S::CENTRES;

    type Call = QuoteCall;

    ghost centres = { S.centres };

    ghost means = { λ s. with_exceptions (set_of s.own.marks) (S.means s.below) };

    ghost denotes = { λ call. call };

    fn centre_count() -> u32 {
        S::centre_count()
    }

    fn tell(&mut self, update: QuoteUpdate) -> Result<(), Refusal> {
        self.below.tell(update)
    }

    fn ask(&self, centre: u32, side: Side) -> Option<Quote> {
        ask_through(&self.below, &self.own, centre, side)
    }

    fn best(&self) -> (Option<u32>, Option<u32>) {
        best_pair_through(&self.below, &self.own)
    }

    fn tell_call(update: QuoteUpdate) -> QuoteCall {
        QuoteCall::Tell(update)
    }

    fn apply(&mut self, call: QuoteCall) -> Result<(), Refusal> {
        match call {
            QuoteCall::Tell(u) => self.below.tell(u),
            QuoteCall::Declare(at) => self.mark(at, true),
            QuoteCall::Lift(at) => self.mark(at, false),
        }
    }

    ghost finds_best = { λ _ _. refl };
}

impl<S: QuoteSource> Excepting for ExceptionLayer<S> {
    fn declare(&mut self, centre: u32) -> Result<(), Refusal> {
        self.mark(centre, true)
    }

    fn lift(&mut self, centre: u32) -> Result<(), Refusal> {
        self.mark(centre, false)
    }

    fn declare_call(centre: u32) -> QuoteCall {
        QuoteCall::Declare(centre)
    }

    fn lift_call(centre: u32) -> QuoteCall {
        QuoteCall::Lift(centre)
    }
}
