//! Retail Orders on the book, at the quotes of a scan table, on cases worked by hand.

use super::{Asked, order_of};
use crate::answers::{Remainder, RetailAnswer};
use crate::ledger::Book;
use quotes::source::QuoteSource;
use scan_table::ScanTable;
use std::alloc::Global;
use std::process::Abort;
use std::test::*;
use terms::market::{QuoteUpdate, Side};
use terms::orders::{Fill, OrderKind, PhaseEvent, RetailOrder, RetailType};
use terms::refusals::Refusal;

// A Retail Order: member, side, type, limit, shares.
// Form: a row of a table, so that a case stands in a line.
#[derive(Clone, Copy)]
struct Sends(u32, Side, RetailType, u32, u32);

// What a resting order gives to it.
fn gives(number: u32, price: u32, shares: u32) -> Fill {
    Fill {
        number,
        price,
        shares,
    }
}

// The answer to one that is taken.
fn traded(
    number: u32,
    fills: usize,
    filled: u32,
    remainder: Remainder,
) -> Result<RetailAnswer, Refusal> {
    Ok(RetailAnswer {
        number,
        fills,
        filled,
        remainder,
    })
}

// What a place of a fill list holds before.
const BLANK: Fill = Fill {
    number: 7,
    price: 8,
    shares: 9,
};

// These fills stand at the front of a list, and the places after them hold what they held.
fn compare_list(rt: &impl Abort, list: &[Fill], fills: &[Fill]) -> Result<(), Fail> {
    assert!(rt; fills.len() <= list.len());
    let (front, behind) = list.split_at(fills.len());
    assert_eq!(rt; front, fills);
    assert!(rt; behind.iter().all(|place| *place == BLANK));
    Ok(())
}

// A book, and the quotes that it looks at.
#[derive(Drop)]
struct Desk {
    book: Book,
    quotes: ScanTable,
}

impl Desk {
    fn new(heap: Global) -> Result<Desk, Fail> {
        Ok(Desk {
            book: Book::new(heap)?,
            quotes: ScanTable::new(),
        })
    }

    // A desk in the open phase, where member 1 is approved.
    fn open(heap: Global) -> Result<Desk, Fail> {
        let mut desk = Desk::new(heap)?;
        desk.book.approve(1)?;
        desk.book.move_phase(PhaseEvent::Opening)?;
        Ok(desk)
    }

    // Centre 0 quotes a price for 100 shares.
    fn quote(&mut self, side: Side, price: u32) -> Result<(), Refusal> {
        self.quotes.tell(QuoteUpdate {
            centre: 0,
            side,
            price,
            size: 100,
        })
    }

    // Orders of a side come to rest.
    fn enter(&mut self, side: Side, orders: &[Asked]) -> Result<(), Fail> {
        for asked in orders {
            self.book.enter(order_of(side, asked))?;
        }
        Ok(())
    }

    // Sends a Retail Order, with a list for its fills.
    fn lend(&mut self, sends: Sends, list: &mut [Fill]) -> Result<RetailAnswer, Refusal> {
        let Sends(member, side, kind, limit, shares) = sends;
        let order = RetailOrder {
            member,
            side,
            kind,
            limit,
            shares,
        };
        self.book.retail(&self.quotes, order, list)
    }

    // With a list of 256 places a Retail Order is answered so, and its fills are these.
    fn send(
        &mut self,
        rt: &impl Abort,
        sends: Sends,
        fills: &[Fill],
        told: Result<RetailAnswer, Refusal>,
    ) -> Result<(), Fail> {
        let mut list = [BLANK; 256];
        assert_eq!(rt; self.lend(sends, &mut list), told);
        compare_list(rt, &list, fills)
    }

    // With a list of 255 places a Retail Order is refused so.
    fn refuse(&mut self, rt: &impl Abort, sends: Sends, why: Refusal) -> Result<(), Fail> {
        let mut list = [BLANK; 255];
        assert_eq!(rt; self.lend(sends, &mut list), Err(why));
        compare_list(rt, &list, &[])
    }

    // The remaining shares of an order, if it rests.
    fn left(&self, number: u32) -> Option<u32> {
        Some(self.book.order(number)?.shares)
    }
}

#[test]
fn a_retail_sell_meets_the_highest_price_first(rt: HostRuntime) -> Result<(), Fail> {
    let mut desk = Desk::open(rt.alloc())?;
    desk.quote(Side::Buy, 10_000)?;
    let buys = &[
        Asked(2, OrderKind::Rpi, 10_015, None, 500),
        Asked(3, OrderKind::Rpi, 10_020, None, 500),
        Asked(1, OrderKind::Rpi, 10_035, None, 500),
    ];
    desk.enter(Side::Buy, buys)?;
    let sale = Sends(1, Side::Sell, RetailType::One, 10_000, 1_000);
    let fills = &[gives(3, 10_035, 500), gives(2, 10_020, 500)];
    desk.send(&rt, sale, fills, traded(4, 2, 1_000, Remainder::Nothing))?;
    let buys = &[
        Asked(2, OrderKind::Rpi, 10_020, None, 100),
        Asked(2, OrderKind::Rpi, 10_035, None, 500),
    ];
    desk.enter(Side::Buy, buys)?;
    let fills = &[
        gives(6, 10_035, 500),
        gives(5, 10_020, 100),
        gives(1, 10_015, 400),
    ];
    desk.send(&rt, sale, fills, traded(7, 3, 1_000, Remainder::Nothing))?;
    assert_eq!(rt; (desk.left(1), desk.book.resting_count()), (Some(100), 1));
    Ok(())
}

// Orders 2, 3 and 4 are at one price, order 5 is below a dollar, and order 6 is a buy at the price of order 1.
#[test]
fn a_retail_buy_meets_the_lowest_price_first(rt: HostRuntime) -> Result<(), Fail> {
    let mut desk = Desk::open(rt.alloc())?;
    desk.quote(Side::Sell, 10_050)?;
    let sells = &[
        Asked(2, OrderKind::Rpi, 10_020, Some(15), 100),
        Asked(2, OrderKind::Hidden, 10_030, None, 100),
        Asked(2, OrderKind::Rpi, 10_030, None, 100),
        Asked(2, OrderKind::Displayed, 10_030, None, 100),
        Asked(2, OrderKind::Rpi, 999, None, 100),
    ];
    desk.enter(Side::Sell, sells)?;
    desk.enter(Side::Buy, &[Asked(2, OrderKind::Rpi, 10_035, None, 100)])?;
    let fills = &[
        gives(4, 10_030, 100),
        gives(2, 10_030, 100),
        gives(3, 10_030, 100),
        gives(1, 10_035, 50),
    ];
    let purchase = Sends(1, Side::Buy, RetailType::One, 10_040, 350);
    desk.send(&rt, purchase, fills, traded(7, 4, 350, Remainder::Nothing))?;
    assert_eq!(rt; (desk.left(1), desk.left(6)), (Some(50), Some(100)));
    Ok(())
}

// Orders 1 to 5, and Retail Orders 6 to 8 while there is no bid.
fn sell_without_a_bid(rt: &impl Abort, desk: &mut Desk) -> Result<(), Fail> {
    let buys = &[
        Asked(2, OrderKind::Rpi, 10_040, Some(15), 200),
        Asked(2, OrderKind::Rpi, 10_036, None, 100),
        Asked(2, OrderKind::Hidden, 9_000, None, 150),
        Asked(2, OrderKind::Rpi, 1_020, Some(1), 100),
        Asked(2, OrderKind::Hidden, 990, None, 100),
    ];
    desk.enter(Side::Buy, buys)?;
    let one = Sends(1, Side::Sell, RetailType::One, 990, 100);
    let two = Sends(1, Side::Sell, RetailType::Two, 9_000, 100);
    let routable = Sends(1, Side::Sell, RetailType::TwoRoutable, 9_000, 100);
    desk.send(rt, one, &[], traded(6, 0, 0, Remainder::Cancelled(100)))?;
    desk.send(
        rt,
        two,
        &[gives(3, 9_000, 100)],
        traded(7, 1, 100, Remainder::Nothing),
    )?;
    desk.send(
        rt,
        routable,
        &[gives(3, 9_000, 50)],
        traded(8, 1, 50, Remainder::Waiting(50)),
    )
}

// At first there is no bid, then the bid is about the price of order 1, and at last it is below a dollar.
#[test]
fn the_bid_decides_what_a_retail_sell_meets(rt: HostRuntime) -> Result<(), Fail> {
    let mut desk = Desk::open(rt.alloc())?;
    sell_without_a_bid(&rt, &mut desk)?;
    let one = Sends(1, Side::Sell, RetailType::One, 990, 100);
    desk.quote(Side::Buy, 10_040)?;
    desk.send(&rt, one, &[], traded(9, 0, 0, Remainder::Cancelled(100)))?;
    desk.quote(Side::Buy, 10_039)?;
    desk.send(
        &rt,
        one,
        &[gives(1, 10_040, 100)],
        traded(10, 1, 100, Remainder::Nothing),
    )?;
    desk.quote(Side::Buy, 10_020)?;
    let more = Sends(1, Side::Sell, RetailType::One, 990, 200);
    let fills = &[gives(2, 10_036, 100), gives(1, 10_035, 100)];
    desk.send(&rt, more, fills, traded(11, 2, 200, Remainder::Nothing))?;
    desk.quote(Side::Buy, 990)?;
    let two = Sends(1, Side::Sell, RetailType::Two, 990, 200);
    desk.send(
        &rt,
        two,
        &[gives(5, 990, 100)],
        traded(12, 1, 100, Remainder::Cancelled(100)),
    )?;
    desk.quote(Side::Buy, 999)?;
    desk.send(
        &rt,
        one,
        &[gives(4, 1_000, 100)],
        traded(13, 1, 100, Remainder::Nothing),
    )
}

// A Retail sell, and the buy that it meets.
const SALE: Sends = Sends(1, Side::Sell, RetailType::Two, 10_000, 100);

const MET: [Asked; 1] = [Asked(2, OrderKind::Hidden, 10_000, None, 100)];

#[test]
fn the_first_refusal_that_applies_is_answered(rt: HostRuntime) -> Result<(), Fail> {
    let mut desk = Desk::new(rt.alloc())?;
    desk.enter(Side::Buy, &MET)?;
    for sends in &[
        Sends(0, Side::Sell, RetailType::Two, 10_000, 100),
        Sends(65, Side::Sell, RetailType::Two, 10_000, 100),
        Sends(1, Side::Sell, RetailType::Two, 0, 100),
        Sends(1, Side::Sell, RetailType::Two, 10_000, 0),
        Sends(1, Side::Sell, RetailType::Two, 10_000, 1_000_001),
    ] {
        desk.refuse(&rt, *sends, Refusal::OutOfRange)?;
    }
    desk.refuse(&rt, SALE, Refusal::WrongPhase)?;
    desk.book.move_phase(PhaseEvent::Opening)?;
    desk.refuse(&rt, SALE, Refusal::NotApproved)?;
    desk.book.approve(1)?;
    desk.refuse(&rt, SALE, Refusal::ShortFillList)?;
    desk.book.move_phase(PhaseEvent::Halting)?;
    desk.send(&rt, SALE, &[], Err(Refusal::WrongPhase))?;
    desk.book.move_phase(PhaseEvent::Opening)?;
    desk.send(
        &rt,
        SALE,
        &[gives(1, 10_000, 100)],
        traded(2, 1, 100, Remainder::Nothing),
    )?;
    desk.book.move_phase(PhaseEvent::Closing)?;
    desk.send(&rt, SALE, &[], Err(Refusal::WrongPhase))
}

#[test]
fn at_most_32_remainders_wait(rt: HostRuntime) -> Result<(), Fail> {
    let mut desk = Desk::open(rt.alloc())?;
    desk.enter(Side::Buy, &MET)?;
    let routable = Sends(1, Side::Sell, RetailType::TwoRoutable, 10_000, 100);
    desk.send(
        &rt,
        routable,
        &[gives(1, 10_000, 100)],
        traded(2, 1, 100, Remainder::Nothing),
    )?;
    for number in 3..=34 {
        desk.send(
            &rt,
            routable,
            &[],
            traded(number, 0, 0, Remainder::Waiting(100)),
        )?;
    }
    desk.enter(Side::Buy, &MET)?;
    desk.refuse(&rt, routable, Refusal::ShortFillList)?;
    desk.send(&rt, routable, &[], Err(Refusal::SlipsFull))?;
    desk.send(
        &rt,
        SALE,
        &[gives(35, 10_000, 100)],
        traded(36, 1, 100, Remainder::Nothing),
    )
}
