//! Retail Orders: one function only reads book and quotes and writes the fills, another takes them off the book.

ghost use Rattle.std.specs.Prelude.{◌≡◌, ◌<◌, ◌≤◌, true, length};
ghost use Rattle.std.specs.List.{AllByRecursion as Each};
ghost use Rattle.terms.specs.declared.market.Side.TheVariants.{Buy, Sell};
ghost use Rattle.rules.specs.Rules.{filled, filled_to, routable};
ghost use Rattle.queues.specs.Sides.{orders_of};
ghost use Rattle.laws.specs.Book.{Trade as TradeOf, after_trade, fills_now, next_number, trade};
ghost use Rattle.laws.specs.Book.Answer.{Traded};
ghost use Rattle.laws.specs.Law.{TradeLaw};
ghost use Rattle.matching.specs.Walks.{FillAnswer};
ghost use Rattle.book.specs.BookState.{RetailDecided, RetailSteps, state_of};
ghost use Rattle.book.specs.Means.{FillsWithin, QueuesAfter, RestTold, Settled, retail_answer, state, trade_of, well_told};

use super::{Book, MAX_SLIPS};
use crate::answers::RetailAnswer;
use crate::retail::{add_slip, is_retail_allowed, is_retail_in_range, is_routable, remainder_of};
use matching::walk::{LEAST_FILL_PLACES, Matched, fill_from};
use quotes::source::{QuoteSource, protected_quotes};
use terms::limits::LAST_ORDER_NUMBER;
use terms::market::Side;
use terms::orders::{Fill, RetailOrder};
use terms::refusals::Refusal;

impl Book {
    // Whether a Retail Order with a fill list of so many places is taken, or else why not.
    fn check_retail(&self, order: RetailOrder, places: usize) -> Result<(), Refusal>
        ensures { RetailDecided (state self.now) order places result }
    {
        if !is_retail_in_range(order) {
            return Err(Refusal::OutOfRange);
        }
        if !is_retail_allowed(self.phase) {
            return Err(Refusal::WrongPhase);
        }
        if !self.register.contains(order.member) {
            return Err(Refusal::NotApproved);
        }
        if places < LEAST_FILL_PLACES {
            return Err(Refusal::ShortFillList);
        }
        if self.last >= LAST_ORDER_NUMBER {
            return Err(Refusal::NumbersExhausted);
        }
        if is_routable(order.kind) && self.slips.len() >= MAX_SLIPS {
            return Err(Refusal::SlipsFull);
        }
        Ok(())
    }

    // Writes the fills of a Retail Order, as book and quotes stand, to the front of a list.
    fn write_fills<S: QuoteSource>(
        &self,
        source: &S,
        order: RetailOrder,
        out: &mut [Fill],
    ) -> Result<Matched, Refusal>
        ensures { FillAnswer (fills_now S.centres (state_of (state self.now) (S.means source.now) out.old) order) out.old out.new result }
    {
        let best = protected_quotes(source);
        let met = match order.side {
            Side::Buy => &self.sells,
            Side::Sell => &self.buys,
        };
        fill_from(met, best, order, out)
    }

    // Takes the fills of a Retail Order, none of which is to an order of its own side, off the book, which gives it its number,
    // and a slip if a remainder waits.
    fn take_off(&mut self, order: RetailOrder, fills: &[Fill], shares: u32) -> RetailAnswer
        requires number { self.old.last < 500000 }
        requires slip { routable order.kind ≡ true → length self.old.slips.slips.items < 32 }
        requires filled { shares ≡ filled fills.now }
        requires within { shares ≤ order.shares }
        requires spared_buys { order.side ≡ Buy → Each (λ o. filled_to fills.now o.number ≡ 0) (orders_of self.old.buys) }
        requires spared_sells { order.side ≡ Sell → Each (λ o. filled_to fills.now o.number ≡ 0) (orders_of self.old.sells) }
        ensures count { result.fills ≡ length fills.now }
        ensures answer { trade_of result fills.now ≡ trade order (next_number (state self.old)) fills.now }
        ensures rest { well_told result.remainder ≡ true }
        ensures after { state self.new ≡ after_trade (state self.old) (trade order (next_number (state self.old)) fills.now) }
        ensures buys { Settled fills.now self.old.buys self.new.buys }
        ensures sells { Settled fills.now self.old.sells self.new.sells }
    {
        let number = self.last + 1;
        let remainder = remainder_of(order.kind, order.shares - shares);
        self.last = number;
        // Form: an arm for each side: a `&mut` that a match chooses gets no proof, nor that one lent keeps its side.
        match order.side {
            Side::Buy => self.sells.settle(fills),
            Side::Sell => self.buys.settle(fills),
        }
        add_slip(&mut self.slips, number, remainder);
        RetailAnswer {
            number,
            fills: fills.len(),
            filled: shares,
            remainder,
        }
    }

    /// A Retail Order is filled from the best price for its customer down, at the protected quotes of a source. Its fills
    /// stand at the front of the list that is lent for them.
    // Form: here and in `write_fills` source, order and list come apart: one is read, one is a value, one is written.
    pub fn retail<S: QuoteSource>(
        &mut self,
        source: &S,
        order: RetailOrder,
        out: &mut [Fill],
    ) -> Result<RetailAnswer, Refusal>
        ensures step { RetailSteps S.centres (S.means source.now) (state self.old) out.old order (retail_answer result out.new) (state self.new) out.new }
        ensures owed { (t : TradeOf) → retail_answer result out.new ≡ Traded t → TradeLaw S.centres (state_of (state self.old) (S.means source.now) out.old) order t }
        ensures within { FillsWithin result out.new }
        ensures rest { RestTold result }
        ensures queues { QueuesAfter result out.new self.old self.new }
    {
        self.check_retail(order, out.len())?;
        let matched = self.write_fills(source, order, out)?;
        Ok(self.take_off(order, &out[..matched.fills], matched.shares))
    }
}
