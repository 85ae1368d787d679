//! A book with the slips that it has handed out, and one call of a list.

ghost use Rattle.std.specs.Prelude.{◌≡◌, ◌≤◌, true, [], map, length, IfOk, vec_capacity};
ghost use Rattle.terms.specs.declared.calls.Call.TheVariants.{Retail as Retailing};
ghost use Rattle.rules.specs.Sorted.{Perm};
ghost use Rattle.laws.specs.Book.{empty_book};
ghost use Rattle.laws.specs.Routed.{drawn_notes, out_after};
ghost use Rattle.laws.specs.Steps.{step};
ghost use Rattle.book.specs.BookState.{state_of};
ghost use Rattle.book.specs.Means.{state};
ghost use Rattle.venue.specs.Answers.{answer_of, call_of, fills_in, note_of, rest_told};
ghost use Rattle.venue.specs.Calls.{KeepsTheLaw};
ghost use Rattle.venue.specs.Closing.{ComeBack};
ghost use Rattle.venue.specs.Together.{in_order, same_notes, slips_numbered};

use crate::answers::Answer;
use crate::closing::take_all_back;
use book::ledger::Book;
use quotes::source::QuoteSource;
use slips::list::MAX_SLIPS;
use slips::slip::DrawnSlip;
use std::alloc::{AllocError, Global};
use terms::calls::Call;
use terms::orders::{Fill, RetailOrder};
use terms::refusals::Refusal;

mod routing;

/// A book, and the slips that it has handed out and that have not come back. It cannot be let go while slips may be out:
/// it is taken apart.
pub struct Venue {
    book: Book,
    held: Vec<DrawnSlip>,
    ghost numbered: { slips_numbered book.last book.slips.slips.items ≡ true },
    ghost tallied: { same_notes (in_order (drawn_notes book.slips.slips.items)) (in_order (map note_of held.items)) ≡ true },
    ghost room: { 32 ≤ vec_capacity held },
}

impl Venue {
    /// An empty book with no slips out, and all the memory that it will ever need.
    pub fn new(heap: Global) -> Result<Self, AllocError>
        ensures { IfOk result (λ v. (state v.book ≡ empty_book) × (v.held.items ≡ [])) }
    {
        let book = Book::new(heap)?;
        let held = Vec::with_capacity(heap, MAX_SLIPS)?;
        Ok(Venue { book, held })
    }

    /// The book and the slips that are out, to be asked.
    pub fn parts(&self) -> (&Book, &[DrawnSlip])
        ensures book { result.0.now ≡ self.now.book }
        ensures slips { result.1.now ≡ self.now.held.items }
    {
        (&self.book, self.held.as_slice())
    }

    /// One call of a list, over any source or stack of layers. Whatever was called before it on a book that was empty at
    /// the start, the whole law holds of those calls and this one.
    #[tactic(auto, using(crate::proofs::Keeping::keeps_the_law))]
    pub fn call<S: QuoteSource>(
        &mut self,
        source: &mut S,
        out: &mut [Fill],
        call: Call<S::Call>,
    ) -> Result<Answer, Refusal>
        ensures step { step S.centres (state_of (state self.old.book) (S.means source.old) out.old) (call_of S.denotes call) ≡ (answer_of result out.new, state_of (state self.new.book) (S.means source.new) out.new) }
        ensures slips { Perm (out_after (map note_of self.old.held.items) (answer_of result out.new)) (map note_of self.new.held.items) }
        ensures within { (fills_in result ≤ length out.new) × (fills_in result ≤ 256) }
        ensures rest { rest_told result ≡ true }
        ensures law { KeepsTheLaw S.centres (state_of (state self.old.book) (S.means source.old) out.old) (call_of S.denotes call) (answer_of result out.new) (state_of (state self.new.book) (S.means source.new) out.new) }
    {
        self.take_step(source, out, call)
    }

    // The step that a call takes from the book, the quotes and the fill list as they stand; what led there plays no part.
    fn take_step<S: QuoteSource>(
        &mut self,
        source: &mut S,
        out: &mut [Fill],
        call: Call<S::Call>,
    ) -> Result<Answer, Refusal>
        ensures step { step S.centres (state_of (state self.old.book) (S.means source.old) out.old) (call_of S.denotes call) ≡ (answer_of result out.new, state_of (state self.new.book) (S.means source.new) out.new) }
        ensures slips { Perm (out_after (map note_of self.old.held.items) (answer_of result out.new)) (map note_of self.new.held.items) }
        ensures within { (fills_in result ≤ length out.new) × (fills_in result ≤ 256) }
        ensures rest { rest_told result ≡ true }
    {
        match call {
            Call::Enter(order) => self.book.enter(order).map(Answer::Entered),
            Call::Cancel { member, number } => {
                self.book.cancel(member, number).map(Answer::Cancelled)
            }
            Call::Retail { order, places } => self.trade(source, order, places, out),
            Call::Draw { number } => self.draw(number),
            Call::Return {
                number,
                shares,
                away,
            } => self.take_back(number, shares, away),
            Call::Move(event) => self.book.move_phase(event).map(|()| Answer::Done),
            Call::Approve { member } => self.book.approve(member).map(|()| Answer::Done),
            Call::Withdraw { member } => self.book.withdraw(member).map(|()| Answer::Done),
            Call::Quotes(quote_call) => source.apply(quote_call).map(|()| Answer::Done),
        }
    }

    // A Retail Order, with so many of the first places of the fill list lent, all if it says more than there are.
    // Form: a number of places beside the list, since `Call::Retail` says how many places it lends.
    fn trade<S: QuoteSource>(
        &mut self,
        source: &S,
        order: RetailOrder,
        places: usize,
        out: &mut [Fill],
    ) -> Result<Answer, Refusal>
        ensures step { step S.centres (state_of (state self.old.book) (S.means source.now) out.old) (Retailing order places) ≡ (answer_of result out.new, state_of (state self.new.book) (S.means source.now) out.new) }
        ensures within { (fills_in result ≤ length out.new) × (fills_in result ≤ 256) }
        ensures rest { rest_told result ≡ true }
        ensures held { self.new.held.items ≡ self.old.held.items }
    {
        let lent = places.min(out.len());
        let answer = self.book.retail(source, order, &mut out[..lent])?;
        Ok(Answer::Traded(answer))
    }

    /// Closes the venue: every slip that is out comes back with nothing executed away, and the book is left with no slip
    /// out.
    pub fn close(self) -> Book
        ensures { ComeBack (state self.book) (map note_of self.held.items) (state result) }
    {
        let (mut book, slips) = self.into_parts();
        take_all_back(&mut book, slips);
        book
    }

    /// Takes the venue apart: its book, and the slips that are out.
    pub fn into_parts(self) -> (Book, Vec<DrawnSlip>)
        ensures { result ≡ (self.book, self.held) }
    {
        let Venue { book, held } = self;
        (book, held)
    }
}
