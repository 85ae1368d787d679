//! Lists of calls on an empty book, at the quotes of a scan table, on cases worked by hand.

mod played;

use self::played::{SlipOut, play};
use crate::answers::Answer;
use crate::venue::Venue;
use book::answers::{EntryAnswer, Remainder, RetailAnswer};
use book::ledger::Book;
use quotes::source::QuoteSource;
use scan_table::ScanTable;
use slips::slip::ReturnAnswer;
use std::test::*;
use terms::calls::Call;
use terms::market::{QuoteUpdate, Side};
use terms::orders::{Fill, NewOrder, OrderKind, PhaseEvent, RetailOrder, RetailType};
use terms::refusals::Refusal;

// An RPI buy of member 2.
fn buy(limit: u32, offset: Option<u32>, shares: u32) -> Call<QuoteUpdate> {
    Call::Enter(NewOrder {
        member: 2,
        side: Side::Buy,
        kind: OrderKind::Rpi,
        limit,
        offset,
        shares,
    })
}

// A routable Retail sell of 800 shares by member 5, with so many places lent for its fills.
fn sell(places: usize) -> Call<QuoteUpdate> {
    let order = RetailOrder {
        member: 5,
        side: Side::Sell,
        kind: RetailType::TwoRoutable,
        limit: 10_000,
        shares: 800,
    };
    Call::Retail { order, places }
}

// The return of a slip.
fn give(number: u32, shares: u32, away: u32) -> Call<QuoteUpdate> {
    Call::Return {
        number,
        shares,
        away,
    }
}

// The quote of the day.
const BID: QuoteUpdate = QuoteUpdate {
    centre: 1,
    side: Side::Buy,
    price: 10_000,
    size: 300,
};

// A day in which the bid is 10,000, so that order 2 is ranked at 10,020 and is filled before order 1. The Retail Order
// has the number 3.
fn day() -> [Call<QuoteUpdate>; 13] {
    [
        Call::Approve { member: 5 },
        Call::Move(PhaseEvent::Opening),
        Call::Quotes(ScanTable::tell_call(BID)),
        buy(10_015, None, 500),
        buy(10_040, Some(20), 100),
        sell(256),
        sell(255),
        Call::Draw { number: 3 },
        Call::Draw { number: 3 },
        give(3, 200, 201),
        give(3, 199, 0),
        give(3, 200, 150),
        give(3, 200, 150),
    ]
}

// What the calls of the day are answered.
const SAID: [Result<Answer, Refusal>; 13] = [
    Ok(Answer::Done),
    Ok(Answer::Done),
    Ok(Answer::Done),
    Ok(Answer::Entered(EntryAnswer {
        number: 1,
        shares: 500,
    })),
    Ok(Answer::Entered(EntryAnswer {
        number: 2,
        shares: 100,
    })),
    Ok(Answer::Traded(RetailAnswer {
        number: 3,
        fills: 2,
        filled: 600,
        remainder: Remainder::Waiting(200),
    })),
    Err(Refusal::ShortFillList),
    Ok(Answer::Drawn {
        number: 3,
        shares: 200,
    }),
    Err(Refusal::NoWaitingSlip),
    Err(Refusal::MoreThanSlip),
    Err(Refusal::NoDrawnSlip),
    Ok(Answer::Returned(ReturnAnswer {
        number: 3,
        away: 150,
        cancelled: 50,
    })),
    Err(Refusal::NoDrawnSlip),
];

const FILLED: [Fill; 2] = [
    Fill {
        number: 2,
        price: 10_020,
        shares: 100,
    },
    Fill {
        number: 1,
        price: 10_015,
        shares: 500,
    },
];

#[test]
fn every_call_of_a_day_is_answered(rt: HostRuntime) -> Result<(), Fail> {
    let played = play(rt.alloc(), &day())?;
    played.compare(&rt, &SAID, &FILLED)?;
    assert_eq!(rt; played.slips_out, 0);
    assert_eq!(rt; played.first_out, None);
    assert!(rt; played.end.is_ok());
    Ok(())
}

#[test]
fn a_slip_is_out_until_it_comes_back(rt: HostRuntime) -> Result<(), Fail> {
    let played = play(rt.alloc(), &day()[..8])?;
    played.compare(&rt, &SAID[..8], &FILLED)?;
    assert_eq!(rt; played.slips_out, 1);
    assert_eq!(rt;
        played.first_out,
        Some(SlipOut {
            number: 3,
            shares: 200
        })
    );
    assert!(rt; played.end.is_ok());
    Ok(())
}

// No contract says when memory is enough.
#[test]
fn with_memory_there_is_a_book_a_venue_and_a_run(rt: HostRuntime) -> Result<(), Fail> {
    let book = Book::new(rt.alloc())?;
    assert_eq!(rt; book.resting_count(), 0);
    let venue = Venue::new(rt.alloc())?;
    assert_eq!(rt; venue.parts().1.len(), 0);
    assert_eq!(rt; venue.close().approved_count(), 0);
    let played = play(rt.alloc(), &[])?;
    played.compare(&rt, &[], &[])?;
    assert!(rt; played.end.is_ok());
    Ok(())
}
