//! What a call is answered, as plain numbers.

ghost use Rattle.std.specs.Prelude.{◌≡◌, List, length};
ghost use Rattle.terms.specs.declared.orders.Fill.{Fill as FillOf};
ghost use Rattle.book.specs.Means.{cancelled_in, waiting_in};
ghost use Rattle.venue.specs.Answers.{answer_with, fills_in};
ghost use Rattle.plain_calls.specs.Plain.{plain, plain_fill, plain_best, taken};

use book::answers::{Remainder, RetailAnswer};
use terms::orders::Fill;
use terms::refusals::Refusal;
use venue::answers::Answer;

/// An answer: the number of the refusal, 0 if the call was taken; the number of the order or slip; the shares that rest, were
/// cancelled, were filled, are on the slip or were executed away; what of a Retail Order or a slip is cancelled, and what
/// waits on a slip; how many fills there are. What does not apply is 0.
#[repr(C)]
#[derive(Clone, Copy, PartialEq, Eq, Debug)]
pub struct PlainAnswer {
    pub refusal: u32,
    pub number: u32,
    pub shares: u32,
    pub cancelled: u32,
    pub waiting: u32,
    pub fills: usize,
}

/// What a resting order gave.
#[repr(C)]
#[derive(Clone, Copy, PartialEq, Eq, Debug)]
pub struct PlainFill {
    pub number: u32,
    pub price: u32,
    pub shares: u32,
}

/// The protected bid and the protected offer, 0 where there is none.
#[repr(C)]
#[derive(Clone, Copy, PartialEq, Eq, Debug)]
pub struct PlainBest {
    pub bid: u32,
    pub offer: u32,
}

// A number and shares, of a call that was taken.
fn taken(number: u32, shares: u32) -> PlainAnswer
    ensures { result ≡ taken number shares 0 0 0 }
{
    PlainAnswer {
        refusal: 0,
        number,
        shares,
        cancelled: 0,
        waiting: 0,
        fills: 0,
    }
}

// The shares of a remainder that are cancelled, and those that wait.
fn parts_of(remainder: Remainder) -> (u32, u32)
    ensures { result ≡ (cancelled_in remainder, waiting_in remainder) }
{
    match remainder {
        Remainder::Nothing => (0, 0),
        Remainder::Cancelled(shares) => (shares, 0),
        Remainder::Waiting(shares) => (0, shares),
    }
}

// What a Retail Order is answered.
fn traded(trade: RetailAnswer) -> PlainAnswer
    ensures { result ≡ taken trade.number trade.filled (cancelled_in trade.remainder) (waiting_in trade.remainder) trade.fills }
{
    let (cancelled, waiting) = parts_of(trade.remainder);
    PlainAnswer {
        cancelled,
        waiting,
        fills: trade.fills,
        ..taken(trade.number, trade.filled)
    }
}

/// What a call is answered.
pub fn plain_answer(answer: Result<Answer, Refusal>) -> PlainAnswer
    ensures told { (fills : List FillOf) → length fills ≡ fills_in answer → plain (answer_with answer fills) ≡ result }
    ensures fills { result.fills ≡ fills_in answer }
{
    match answer {
        Err(why) => PlainAnswer {
            refusal: why.number(),
            ..taken(0, 0)
        },
        Ok(Answer::Done) => taken(0, 0),
        Ok(Answer::Entered(entry)) => taken(entry.number, entry.shares),
        Ok(Answer::Cancelled(cancel)) => taken(cancel.number, cancel.shares),
        Ok(Answer::Traded(trade)) => traded(trade),
        Ok(Answer::Drawn { number, shares }) => taken(number, shares),
        Ok(Answer::Returned(back)) => PlainAnswer {
            cancelled: back.cancelled,
            ..taken(back.number, back.away)
        },
    }
}

/// What one resting order gave.
pub fn plain_fill(fill: Fill) -> PlainFill
    ensures { result ≡ plain_fill fill }
{
    PlainFill {
        number: fill.number,
        price: fill.price,
        shares: fill.shares,
    }
}

/// The protected bid and the protected offer.
pub fn plain_best(best: (Option<u32>, Option<u32>)) -> PlainBest
    ensures { result ≡ plain_best best }
{
    PlainBest {
        bid: best.0.unwrap_or(0),
        offer: best.1.unwrap_or(0),
    }
}
