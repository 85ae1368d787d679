//! The calls of the book, each equal to its step.

ghost use Rattle.std.specs.Prelude.{◌≡◌, ℕ, length, IfOk, nat_eq};
ghost use Rattle.terms.specs.declared.calls.Call.TheVariants.{Enter, Cancel, Move, Approve, Withdraw};
ghost use Rattle.terms.specs.declared.market.Side.TheVariants.{Buy, Sell};
ghost use Rattle.quotes.specs.Quotes.{best_pair};
ghost use Rattle.rules.specs.Lists.{found};
ghost use Rattle.rules.specs.Rules.{side_on};
ghost use Rattle.laws.specs.Book.{empty_book, approved_up_to};
ghost use Rattle.book.specs.BookState.{Steps, Decided};
ghost use Rattle.book.specs.Identified.{identifier_of};
ghost use Rattle.book.specs.Means.{state, done_answer, entry_answer, cancel_answer};

use super::Book;
use crate::answers::{CancelAnswer, EntryAnswer, Identifier};
use crate::entry::{is_broken_cent, is_entry_allowed, is_in_range, is_ordinary, rests_as};
use queues::side::{MAX_RESTING, SideQueues};
use quotes::source::{QuoteSource, protected_quotes};
use register::Register;
use slips::list::SlipList;
use std::alloc::{AllocError, Global};
use terms::limits::{LAST_ORDER_NUMBER, is_valid_member};
use terms::market::Side;
use terms::orders::{NewOrder, Phase, PhaseEvent, RestingOrder};
use terms::refusals::Refusal;

impl Book {
    /// An empty book, with all the memory that it will ever need.
    pub fn new(heap: Global) -> Result<Self, AllocError>
        ensures { IfOk result (λ b. state b ≡ empty_book) }
    {
        let buys = SideQueues::new(heap, Side::Buy)?;
        let sells = SideQueues::new(heap, Side::Sell)?;
        let slips = SlipList::new(heap)?;
        Ok(Book {
            phase: Phase::Early,
            register: Register::new(),
            last: 0,
            buys,
            sells,
            slips,
        })
    }

    /// How many orders rest.
    pub fn resting_count(&self) -> usize
        ensures { result ≡ length (state self.now).resting }
    {
        self.buys.len() + self.sells.len()
    }

    /// How many members are approved.
    pub fn approved_count(&self) -> u32
        ensures { result ≡ approved_up_to (state self.now).approved 64 }
    {
        self.register.count()
    }

    /// The resting order of a number.
    pub fn order(&self, number: u32) -> Option<RestingOrder>
        ensures { result ≡ found (λ o. nat_eq o.number number) (state self.now).resting }
    {
        self.buys.find(number).or_else(|| self.sells.find(number))
    }

    /// On which sides there is RPI interest for Retail Orders, at the protected quotes of a source.
    #[tactic(auto, using(crate::proofs::Interest::buys_on, crate::proofs::Interest::sells_on))]
    pub fn identifier<S: QuoteSource>(&self, source: &S) -> Identifier
        ensures { result ≡ identifier_of (side_on (best_pair S.centres (S.means source.now)) (state self.now).resting Buy) (side_on (best_pair S.centres (S.means source.now)) (state self.now).resting Sell) }
    {
        let best = protected_quotes(source);
        let buys = self.buys.has_rpi_interest(best);
        let sells = self.sells.has_rpi_interest(best);
        match (buys, sells) {
            (false, false) => Identifier::Neither,
            (true, false) => Identifier::Buys,
            (false, true) => Identifier::Sells,
            (true, true) => Identifier::Both,
        }
    }

    /// The phase of the day changes.
    pub fn move_phase(&mut self, event: PhaseEvent) -> Result<(), Refusal>
        ensures { Steps (state self.old) (Move event) (done_answer result) (state self.new) }
    {
        self.phase = match (self.phase, event) {
            (Phase::Early | Phase::Halted, PhaseEvent::Opening) => Phase::Open,
            (Phase::Open, PhaseEvent::Halting) => Phase::Halted,
            (Phase::Early | Phase::Open | Phase::Halted, PhaseEvent::Closing) => Phase::Closed,
            _ => return Err(Refusal::WrongPhase),
        };
        Ok(())
    }

    /// A member is approved to send Retail Orders.
    pub fn approve(&mut self, member: u32) -> Result<(), Refusal>
        ensures { Steps (state self.old) (Approve member) (done_answer result) (state self.new) }
    {
        self.register.approve(member)
    }

    /// The approval of a member ends.
    pub fn withdraw(&mut self, member: u32) -> Result<(), Refusal>
        ensures { Steps (state self.old) (Withdraw member) (done_answer result) (state self.new) }
    {
        self.register.withdraw(member)
    }

    // Whether an order may be entered, or else why not.
    fn check_entry(&self, order: NewOrder) -> Result<(), Refusal>
        ensures { Decided (state self.now) (Enter order) result }
    {
        if !is_in_range(order) {
            return Err(Refusal::OutOfRange);
        }
        if is_ordinary(order.kind) && is_broken_cent(order.limit) {
            return Err(Refusal::NotWholeCent);
        }
        if is_ordinary(order.kind) && order.offset.is_some() {
            return Err(Refusal::OffsetNotRpi);
        }
        if !is_entry_allowed(self.phase) {
            return Err(Refusal::WrongPhase);
        }
        if self.resting_count() >= MAX_RESTING {
            return Err(Refusal::BookFull);
        }
        if self.last >= LAST_ORDER_NUMBER {
            return Err(Refusal::NumbersExhausted);
        }
        Ok(())
    }

    /// An order is to rest.
    pub fn enter(&mut self, order: NewOrder) -> Result<EntryAnswer, Refusal>
        ensures { Steps (state self.old) (Enter order) (entry_answer result) (state self.new) }
    {
        self.check_entry(order)?;
        let number = self.last + 1;
        let resting = rests_as(number, order);
        self.last = number;
        // Form: an arm for each side: a `&mut` that a match chooses gets no proof, nor that one lent keeps its side.
        match order.side {
            Side::Buy => self.buys.enter(resting),
            Side::Sell => self.sells.enter(resting),
        }
        Ok(EntryAnswer {
            number,
            shares: order.shares,
        })
    }

    /// A member cancels its resting order of a number.
    pub fn cancel(&mut self, member: u32, number: u32) -> Result<CancelAnswer, Refusal>
        ensures { Steps (state self.old) (Cancel member number) (cancel_answer result) (state self.new) }
    {
        if !is_valid_member(member) {
            return Err(Refusal::OutOfRange);
        }
        let order = self
            .order(number)
            .filter(|order| order.member == member)
            .ok_or(Refusal::NoSuchOrder)?;
        // Form: an arm for each side: a `&mut` that a match chooses gets no proof, nor that one lent keeps its side.
        match order.side {
            Side::Buy => self.buys.remove(number),
            Side::Sell => self.sells.remove(number),
        }
        Ok(CancelAnswer {
            number,
            shares: order.shares,
        })
    }
}
