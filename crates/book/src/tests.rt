//! The calls of the book, on cases worked by hand.

mod retail;

use crate::answers::{CancelAnswer, EntryAnswer};
use crate::ledger::Book;
use queues::side::MAX_RESTING;
use std::alloc::Global;
use std::process::Abort;
use std::test::*;
use terms::limits::LAST_ORDER_NUMBER;
use terms::market::Side;
use terms::orders::{NewOrder, OrderKind, PhaseEvent};
use terms::refusals::Refusal;

// An order that every book takes before it closes.
const PLAIN: NewOrder = NewOrder {
    member: 1,
    side: Side::Buy,
    kind: OrderKind::Rpi,
    limit: 10_015,
    offset: None,
    shares: 100,
};

// The answer to an entry that is taken.
fn entered(number: u32, shares: u32) -> Result<EntryAnswer, Refusal> {
    Ok(EntryAnswer { number, shares })
}

// The answer to a cancel that is taken.
fn cancelled(number: u32, shares: u32) -> Result<CancelAnswer, Refusal> {
    Ok(CancelAnswer { number, shares })
}

// What an order asks for: member, kind, limit, offset, shares.
// Form: a row of a table, so that a case stands in a line.
struct Asked(u32, OrderKind, u32, Option<u32>, u32);

const TAKEN: [Asked; 12] = [
    Asked(1, OrderKind::Rpi, 10_015, None, 100),
    Asked(64, OrderKind::Rpi, 10_015, None, 100),
    Asked(1, OrderKind::Rpi, 1, None, 100),
    Asked(1, OrderKind::Rpi, 10_000_000, None, 100),
    Asked(1, OrderKind::Rpi, 10_015, Some(1), 100),
    Asked(1, OrderKind::Rpi, 10_015, Some(100_000), 100),
    Asked(1, OrderKind::Rpi, 10_015, None, 1),
    Asked(1, OrderKind::Rpi, 10_015, None, 1_000_000),
    // below a dollar an ordinary order need not be at a whole cent
    Asked(1, OrderKind::Hidden, 999, None, 100),
    Asked(1, OrderKind::Hidden, 10_010, None, 100),
    Asked(1, OrderKind::Displayed, 1_000, None, 100),
    Asked(1, OrderKind::Displayed, 991, None, 100),
];

const OUT_OF_RANGE: [Asked; 10] = [
    Asked(0, OrderKind::Rpi, 10_015, None, 100),
    Asked(65, OrderKind::Rpi, 10_015, None, 100),
    Asked(1, OrderKind::Rpi, 0, None, 100),
    Asked(1, OrderKind::Rpi, 10_000_001, None, 100),
    Asked(1, OrderKind::Rpi, 10_015, Some(0), 100),
    Asked(1, OrderKind::Rpi, 10_015, Some(100_001), 100),
    Asked(1, OrderKind::Rpi, 10_015, None, 0),
    Asked(1, OrderKind::Rpi, 10_015, None, 1_000_001),
    // a range is looked at before cents and offsets
    Asked(1, OrderKind::Hidden, 10_015, None, 0),
    Asked(1, OrderKind::Displayed, 10_010, Some(0), 100),
];

const NOT_WHOLE_CENT: [Asked; 4] = [
    Asked(1, OrderKind::Hidden, 1_001, None, 100),
    Asked(1, OrderKind::Hidden, 10_015, None, 100),
    Asked(1, OrderKind::Displayed, 10_019, None, 100),
    // cents are looked at before offsets
    Asked(1, OrderKind::Displayed, 10_019, Some(10), 100),
];

const OFFSET_NOT_RPI: [Asked; 3] = [
    Asked(1, OrderKind::Hidden, 10_010, Some(10), 100),
    Asked(1, OrderKind::Displayed, 10_010, Some(1), 100),
    Asked(1, OrderKind::Displayed, 999, Some(10), 100),
];

// The order of a side that asks for this.
fn order_of(side: Side, asked: &Asked) -> NewOrder {
    let Asked(member, kind, limit, offset, shares) = *asked;
    NewOrder {
        member,
        side,
        kind,
        limit,
        offset,
        shares,
    }
}

// Enters an order into a book of its own: it is taken, or refused so.
fn enter_one(
    rt: &impl Abort,
    heap: Global,
    side: Side,
    asked: &Asked,
    taken: Result<(), Refusal>,
) -> Result<(), Fail> {
    let order = order_of(side, asked);
    let expected = taken.and_then(|()| entered(1, order.shares));
    let mut book = Book::new(heap)?;
    assert_eq!(rt; book.enter(order), expected);
    assert_eq!(rt; book.order(1).is_some(), taken.is_ok());
    Ok(())
}

// Enters each order as a buy and as a sell: every one is taken, or every one is refused so.
fn enter_each(
    rt: &impl Abort,
    heap: Global,
    orders: &[Asked],
    taken: Result<(), Refusal>,
) -> Result<(), Fail> {
    for asked in orders {
        enter_one(rt, heap, Side::Buy, asked, taken)?;
        enter_one(rt, heap, Side::Sell, asked, taken)?;
    }
    Ok(())
}

#[test]
fn entries_are_taken_or_refused(rt: HostRuntime) -> Result<(), Fail> {
    enter_each(&rt, rt.alloc(), &TAKEN, Ok(()))?;
    enter_each(&rt, rt.alloc(), &OUT_OF_RANGE, Err(Refusal::OutOfRange))?;
    enter_each(&rt, rt.alloc(), &NOT_WHOLE_CENT, Err(Refusal::NotWholeCent))?;
    enter_each(&rt, rt.alloc(), &OFFSET_NOT_RPI, Err(Refusal::OffsetNotRpi))
}

#[test]
fn the_last_place_is_taken_and_given_back(rt: HostRuntime) -> Result<(), Fail> {
    let mut book = Book::new(rt.alloc())?;
    for i in 0..MAX_RESTING {
        assert_eq!(rt; book.resting_count(), i);
        assert!(rt; book.enter(PLAIN).is_ok());
    }
    assert_eq!(rt; book.enter(PLAIN), Err(Refusal::BookFull));
    let nothing = NewOrder { shares: 0, ..PLAIN };
    assert_eq!(rt;
        book.enter(nothing),
        Err(Refusal::OutOfRange),
        "a range is looked at first"
    );
    assert_eq!(rt; book.cancel(1, 17), cancelled(17, 100));
    assert_eq!(rt;
        book.enter(PLAIN),
        entered(257, 100),
        "a number is not given twice"
    );
    assert_eq!(rt; book.resting_count(), MAX_RESTING);
    Ok(())
}

#[test]
fn numbers_end(rt: HostRuntime) -> Result<(), Fail> {
    let mut book = Book::new(rt.alloc())?;
    for number in 1..=LAST_ORDER_NUMBER {
        assert_eq!(rt; book.enter(PLAIN), entered(number, 100));
        assert_eq!(rt; book.cancel(1, number), cancelled(number, 100));
    }
    assert_eq!(rt; book.enter(PLAIN), Err(Refusal::NumbersExhausted));
    assert_eq!(rt; book.resting_count(), 0);
    Ok(())
}

#[test]
fn a_member_cancels_its_own_orders(rt: HostRuntime) -> Result<(), Fail> {
    let mut book = Book::new(rt.alloc())?;
    assert_eq!(rt; book.enter(PLAIN), entered(1, 100));
    assert_eq!(rt; book.cancel(2, 1), Err(Refusal::NoSuchOrder));
    assert_eq!(rt; book.cancel(1, 0), Err(Refusal::NoSuchOrder));
    assert_eq!(rt; book.cancel(1, 2), Err(Refusal::NoSuchOrder));
    assert_eq!(rt; book.cancel(0, 1), Err(Refusal::OutOfRange));
    assert_eq!(rt; book.cancel(65, 1), Err(Refusal::OutOfRange));
    assert_eq!(rt; book.resting_count(), 1);
    assert_eq!(rt; book.move_phase(PhaseEvent::Closing), Ok(()));
    assert_eq!(rt; book.cancel(1, 1), cancelled(1, 100), "after the close too");
    assert_eq!(rt; book.cancel(1, 1), Err(Refusal::NoSuchOrder));
    Ok(())
}

#[test]
fn the_day_opens_halts_and_closes(rt: HostRuntime) -> Result<(), Fail> {
    let mut book = Book::new(rt.alloc())?;
    assert_eq!(rt;
        book.move_phase(PhaseEvent::Halting),
        Err(Refusal::WrongPhase)
    );
    assert_eq!(rt; book.move_phase(PhaseEvent::Opening), Ok(()));
    assert_eq!(rt;
        book.move_phase(PhaseEvent::Opening),
        Err(Refusal::WrongPhase)
    );
    assert_eq!(rt; book.move_phase(PhaseEvent::Halting), Ok(()));
    assert_eq!(rt;
        book.move_phase(PhaseEvent::Halting),
        Err(Refusal::WrongPhase)
    );
    assert_eq!(rt; book.enter(PLAIN), entered(1, 100), "halted");
    assert_eq!(rt; book.move_phase(PhaseEvent::Opening), Ok(()));
    assert_eq!(rt; book.move_phase(PhaseEvent::Closing), Ok(()));
    assert_eq!(rt;
        book.move_phase(PhaseEvent::Opening),
        Err(Refusal::WrongPhase)
    );
    assert_eq!(rt;
        book.move_phase(PhaseEvent::Closing),
        Err(Refusal::WrongPhase)
    );
    assert_eq!(rt; book.enter(PLAIN), Err(Refusal::WrongPhase));
    Ok(())
}

#[test]
fn approvals_are_counted_once(rt: HostRuntime) -> Result<(), Fail> {
    let mut book = Book::new(rt.alloc())?;
    for member in 1..=64 {
        assert_eq!(rt; book.approve(member), Ok(()));
        assert_eq!(rt; book.approve(member), Ok(()));
        assert_eq!(rt; book.approved_count(), member);
    }
    assert_eq!(rt; book.approve(65), Err(Refusal::OutOfRange));
    assert_eq!(rt; book.withdraw(0), Err(Refusal::OutOfRange));
    assert_eq!(rt; book.withdraw(64), Ok(()));
    assert_eq!(rt; book.withdraw(64), Ok(()));
    assert_eq!(rt; book.withdraw(1), Ok(()));
    assert_eq!(rt; book.approved_count(), 62);
    Ok(())
}
