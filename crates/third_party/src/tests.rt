//! Cases worked by hand: a list of calls over the counting source, on the venue's stack, on the tree, on a borrowed tree
//! and under a lot layer; and a slip that is drawn and given back.

mod slip_use;

use self::slip_use::give_back_once;
use crate::lent::LentSource;
use crate::source::{CountingSource, run_over};
use book::answers::{EntryAnswer, Remainder, RetailAnswer};
use book::ledger::Book;
use lot_layer::LotLayer;
use quotes::source::{Excepting, QuoteSource};
use slips::slip::ReturnAnswer;
use stacks::{VenueQuotes, venue_quotes};
use std::alloc::{AllocError, Global};
use std::process::Abort;
use std::test::*;
use terms::calls::Call;
use terms::market::{QuoteUpdate, Side};
use terms::orders::{Fill, NewOrder, OrderKind, PhaseEvent, RetailOrder, RetailType};
use terms::refusals::Refusal;
use tournament_tree::TournamentTree;
use venue::answers::Answer;
use venue::runs::{ClosedRun, run};

// What a place of a fill list holds before.
const BLANK: Fill = Fill {
    number: 0,
    price: 0,
    shares: 0,
};

// What a centre is told.
fn update(centre: u32, side: Side, price: u32, size: u32) -> QuoteUpdate {
    QuoteUpdate {
        centre,
        side,
        price,
        size,
    }
}

// An RPI buy of member 2.
fn buy<C>(limit: u32, offset: Option<u32>, shares: u32) -> Call<C> {
    Call::Enter(NewOrder {
        member: 2,
        side: Side::Buy,
        kind: OrderKind::Rpi,
        limit,
        offset,
        shares,
    })
}

// A Retail sell of Type 1 by member 5.
fn sell<C>(shares: u32) -> Call<C> {
    let order = RetailOrder {
        member: 5,
        side: Side::Sell,
        kind: RetailType::One,
        limit: 10_000,
        shares,
    };
    Call::Retail { order, places: 256 }
}

// Two centres bid, the second for 50 shares, less than a round lot; centre 20 is one that the tree does not have.
fn day<S: QuoteSource>(heap: Global) -> Result<Vec<Call<S::Call>>, AllocError> {
    let tell = |centre, side, price, size| {
        Call::Quotes(S::tell_call(update(centre, side, price, size)))
    };
    // Form: pushed one by one, since an array of a type parameter's calls has no known size.
    let mut calls = Vec::new(heap);
    calls.push(Call::Approve { member: 5 })?;
    calls.push(Call::Move(PhaseEvent::Opening))?;
    calls.push(tell(1, Side::Buy, 10_000, 300))?;
    calls.push(tell(2, Side::Buy, 10_010, 50))?;
    calls.push(buy(10_015, None, 500))?;
    calls.push(buy(10_040, Some(20), 100))?;
    calls.push(sell(300))?;
    calls.push(tell(2, Side::Buy, 10_015, 50))?;
    calls.push(sell(200))?;
    calls.push(tell(20, Side::Sell, 10_050, 100))?;
    Ok(calls)
}

// An entered order.
fn entered(number: u32, shares: u32) -> Result<Answer, Refusal> {
    Ok(Answer::Entered(EntryAnswer { number, shares }))
}

// A filled Retail Order.
fn traded(number: u32, fills: usize, filled: u32, remainder: Remainder) -> Result<Answer, Refusal> {
    Ok(Answer::Traded(RetailAnswer {
        number,
        fills,
        filled,
        remainder,
    }))
}

// What the calls of the day are answered: the second Retail Order this, and the quote of centre 20 that.
fn said(
    second: Result<Answer, Refusal>,
    quote: Result<Answer, Refusal>,
) -> [Result<Answer, Refusal>; 10] {
    let done = Ok(Answer::Done);
    [
        done,
        done,
        done,
        done,
        entered(1, 500),
        entered(2, 100),
        traded(3, 2, 300, Remainder::Nothing),
        done,
        second,
        quote,
    ]
}

fn fill(number: u32, price: u32, shares: u32) -> Fill {
    Fill {
        number,
        price,
        shares,
    }
}

// Through the lot of the stack the bid is 10,000 all day: order 2 is ranked at 10,020, and order 1 betters the bid.
fn compare_with_lot(rt: &impl Abort, day: &ClosedRun, quote: Result<Answer, Refusal>) {
    let answers = said(traded(4, 1, 200, Remainder::Nothing), quote);
    assert_eq!(rt; day.answers.as_slice(), answers.as_slice());
    let fills = [
        fill(2, 10_020, 100),
        fill(1, 10_015, 200),
        fill(1, 10_015, 200),
    ];
    assert_eq!(rt; day.fills.as_slice(), fills.as_slice());
    assert!(rt; day.end.is_ok());
}

#[test]
fn over_the_stack_of_the_venue(rt: HostRuntime) -> Result<(), Fail> {
    let mut source = CountingSource::new(venue_quotes());
    let calls = day::<VenueQuotes>(rt.alloc())?;
    let day = run_over(rt.alloc(), &mut source, &mut [BLANK; 256], calls.as_slice())?.close();
    compare_with_lot(&rt, &day, Ok(Answer::Done));
    assert_eq!(rt; source.best(), (Some(10_000), Some(10_050)));
    assert_eq!(rt; source.told(), 4);
    // its other calls go down too
    assert_eq!(rt; source.apply(VenueQuotes::declare_call(1)), Ok(()));
    assert_eq!(rt; source.tell(update(3, Side::Buy, 9_990, 100)), Ok(()));
    assert_eq!(rt; source.ask(1, Side::Buy), None);
    assert_eq!(rt; source.best(), (Some(9_990), Some(10_050)));
    assert_eq!(rt; source.told(), 6);
    Ok(())
}

// Without a lot the bid is first 10,010, so that order 2 is ranked at 10,030, and then 10,015, which order 1 does not
// better.
#[test]
fn over_the_tree(rt: HostRuntime) -> Result<(), Fail> {
    let mut source = CountingSource::new(TournamentTree::new());
    let calls = day::<TournamentTree>(rt.alloc())?;
    let day = run_over(rt.alloc(), &mut source, &mut [BLANK; 256], calls.as_slice())?.close();
    let answers = said(
        traded(4, 0, 0, Remainder::Cancelled(200)),
        Err(Refusal::OutOfRange),
    );
    assert_eq!(rt; day.answers.as_slice(), answers.as_slice());
    let fills = [fill(2, 10_030, 100), fill(1, 10_015, 200)];
    assert_eq!(rt; day.fills.as_slice(), fills.as_slice());
    assert!(rt; day.end.is_ok());
    assert_eq!(rt; source.best(), (Some(10_015), None));
    assert_eq!(rt; source.told(), 4, "a refused tell is counted too");
    Ok(())
}

// The day of the stack over a borrowed tree: the lot stands over the borrowed source, and what it is told stays told when
// the tree comes back.
#[test]
fn over_a_borrowed_tree(rt: HostRuntime) -> Result<(), Fail> {
    let mut tree = TournamentTree::new();
    let calls = day::<TournamentTree>(rt.alloc())?;
    let lent = LotLayer::new(LentSource::new(&mut tree), 100);
    let mut source = CountingSource::new(lent);
    let day = run_over(rt.alloc(), &mut source, &mut [BLANK; 256], calls.as_slice())?.close();
    compare_with_lot(&rt, &day, Err(Refusal::OutOfRange));
    assert_eq!(rt; source.best(), (Some(10_000), None));
    assert_eq!(rt;
        tree.best(),
        (Some(10_015), None),
        "the tree itself has no lot"
    );
    Ok(())
}

#[test]
fn the_constant_is_passed_on(rt: HostRuntime) {
    assert_eq!(rt; VenueQuotes::CENTRES, 32);
    assert_eq!(rt; CountingSource::<VenueQuotes>::CENTRES, 32);
    assert_eq!(rt; LentSource::<TournamentTree>::CENTRES, 16);
}

#[test]
fn under_a_lot_layer(rt: HostRuntime) -> Result<(), Fail> {
    let mut source = LotLayer::new(CountingSource::new(TournamentTree::new()), 100);
    let calls = day::<TournamentTree>(rt.alloc())?;
    let day = run(rt.alloc(), &mut source, &mut [BLANK; 256], calls.as_slice())?.close();
    compare_with_lot(&rt, &day, Err(Refusal::OutOfRange));
    assert_eq!(rt; source.best(), (Some(10_000), None));
    Ok(())
}

#[test]
fn a_slip_is_given_back_once(rt: HostRuntime) -> Result<(), Fail> {
    let mut book = Book::new(rt.alloc())?;
    assert_eq!(rt; book.approve(5), Ok(()));
    assert_eq!(rt; book.move_phase(PhaseEvent::Opening), Ok(()));
    let order = RetailOrder {
        member: 5,
        side: Side::Sell,
        kind: RetailType::TwoRoutable,
        limit: 10_000,
        shares: 200,
    };
    let sent = book.retail(&TournamentTree::new(), order, &mut [BLANK; 256]);
    assert!(rt; sent.is_ok());
    assert_eq!(rt; book.waiting_shares(1), Some(200));
    match give_back_once(&mut book, 1) {
        Ok(Ok(answer)) => {
            let all = ReturnAnswer {
                number: 1,
                away: 0,
                cancelled: 200,
            };
            assert_eq!(rt; answer, all);
        }
        Ok(Err(_refused)) => panic!(rt; "the return was refused"),
        Err(_) => panic!(rt; "the draw was refused"),
    }
    assert_eq!(rt; book.waiting_shares(1), None);
    Ok(())
}
