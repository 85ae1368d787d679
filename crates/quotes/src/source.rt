//! The one interface of all sources of quotes, and the interface of those that can be told of exceptions.

ghost use Rattle.std.specs.Prelude.{◌≡◌, ℕ, ◌≤◌, Bool};
ghost use Rattle.terms.specs.declared.market.Quote.{Quote as Quoted};
ghost use Rattle.terms.specs.declared.market.QuoteCall.{QuoteCall};
ghost use Rattle.terms.specs.declared.market.QuoteCall.TheVariants.{Tell, Declare, Lift};
ghost use Rattle.quotes.specs.Quotes.{Quotes, asked, best_pair, call_answer, after_call};
ghost use Rattle.quotes.specs.Filters.{best_passing};
ghost use Rattle.quotes.specs.QuoteLaws.{PairProtects, QuotesAlwaysHold};

use crate::search::Searchable;
use terms::market::{Quote, QuoteUpdate, Side};
use terms::refusals::Refusal;

/// A source of quotes. Be it a table or a stack of layers over one: its calls change what it means, and its questions
/// answer, exactly as the definitions say.
pub trait QuoteSource: Searchable {
    /// How many market centres the source has; they are numbered from 0.
    const CENTRES: usize;

    /// The calls that this kind of source takes.
    type Call: Copy;

    ghost centres: { ℕ };

    ghost means: { Self → Quotes };

    ghost denotes: { Self.Call → QuoteCall };

    /// The number of market centres, 1 to 64.
    fn centre_count() -> u32
        ensures value { result ≡ centres }
        ensures some { 1 ≤ result }
        ensures few { result ≤ 64 };

    /// From now on a centre quotes this price and size on a side; a size of 0 takes its quote away.
    fn tell(&mut self, update: QuoteUpdate) -> Result<(), Refusal>
        ensures answer { result ≡ call_answer centres (Tell update) }
        ensures after { means self.new ≡ after_call centres (means self.old) (Tell update) };

    /// The quote that a centre shows on a side.
    fn ask(&self, centre: u32, side: Side) -> Option<Quote>
        ensures answer { result ≡ asked centres (means self.now) centre side }
        ensures lot { 1 ≤ (means self.now).lot };

    /// The protected bid and the protected offer.
    fn best(&self) -> (Option<u32>, Option<u32>)
        ensures { result ≡ best_pair centres (means self.now) };

    /// The call that tells a centre's quote.
    fn tell_call(update: QuoteUpdate) -> Self::Call
        ensures { denotes result ≡ Tell update };

    /// Makes one of this source's own calls.
    fn apply(&mut self, call: Self::Call) -> Result<(), Refusal>
        ensures answer { result ≡ call_answer centres (denotes call) }
        ensures after { means self.new ≡ after_call centres (means self.old) (denotes call) };

    // What a search finds are the best prices of the quotes that the source shows and the filter lets through.
    ghost finds_best: { (source : Self) (passes : ℕ → Quoted → Bool) → Self.finds source passes ≡ best_passing passes centres (means source) };
}

/// A source with an exception layer, to which exceptions are declared.
pub trait Excepting: QuoteSource {
    /// From now on a centre need not be honoured.
    fn declare(&mut self, centre: u32) -> Result<(), Refusal>
        ensures answer { result ≡ call_answer Self.centres (Declare centre) }
        ensures after { Self.means self.new ≡ after_call Self.centres (Self.means self.old) (Declare centre) };

    /// The exception that was declared of a centre ends.
    fn lift(&mut self, centre: u32) -> Result<(), Refusal>
        ensures answer { result ≡ call_answer Self.centres (Lift centre) }
        ensures after { Self.means self.new ≡ after_call Self.centres (Self.means self.old) (Lift centre) };

    /// The call that declares an exception.
    fn declare_call(centre: u32) -> Self::Call
        ensures { Self.denotes result ≡ Declare centre };

    /// The call that lifts an exception.
    fn lift_call(centre: u32) -> Self::Call
        ensures { Self.denotes result ≡ Lift centre };
}

/// The protected bid and the protected offer of any source: each is shown by some centre and no centre shows a better
/// one, and it is absent exactly if none is shown.
pub fn protected_quotes<S: QuoteSource>(source: &S) -> (Option<u32>, Option<u32>)
    ensures best { result ≡ best_pair S.centres (S.means source.now) }
    ensures protects { PairProtects S.centres (S.means source.now) result }
{
    source.best()
}

/// What is shown, what the calls change and leave, and what shows through a layer: the relations that the definitions
/// of the quotes keep.
// Form: a number as the body, the project's mark of a function that only carries a statement.
pub fn quotes_hold() -> u32
    ensures { QuotesAlwaysHold }
{
    0
}
