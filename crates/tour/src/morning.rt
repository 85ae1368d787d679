//! The events of the morning.

use desk::events::Event;
use terms::market::{QuoteUpdate, Side};
use terms::orders::{NewOrder, OrderKind, PhaseEvent, RetailOrder, RetailType};

/// The events of the morning, each with what there is to say of it.
pub const MORNING: [(Event, &str); 59] = [
    (
        Event::Enter(NewOrder {
            member: 2,
            side: Side::Buy,
            kind: OrderKind::Rpi,
            limit: 10_015,
            offset: None,
            shares: 500,
        }),
        "Orders may be entered early.",
    ),
    (
        Event::Quote(QuoteUpdate {
            centre: 1,
            side: Side::Buy,
            price: 10_000,
            size: 300,
        }),
        "The first quote of the day.",
    ),
    (
        Event::Quote(QuoteUpdate {
            centre: 2,
            side: Side::Sell,
            price: 10_050,
            size: 500,
        }),
        "Now both sides are protected.",
    ),
    (Event::Phase(PhaseEvent::Opening), "Retail Orders may come."),
    (
        Event::Enter(NewOrder {
            member: 3,
            side: Side::Buy,
            kind: OrderKind::Rpi,
            limit: 10_040,
            offset: Some(20),
            shares: 100,
        }),
        "Its price follows the bid.",
    ),
    (
        Event::Enter(NewOrder {
            member: 4,
            side: Side::Buy,
            kind: OrderKind::Hidden,
            limit: 10_010,
            offset: None,
            shares: 300,
        }),
        "Ordinary interest, not displayed.",
    ),
    (
        Event::Enter(NewOrder {
            member: 4,
            side: Side::Buy,
            kind: OrderKind::Hidden,
            limit: 10_015,
            offset: None,
            shares: 300,
        }),
        "From a dollar on, ordinary orders are at whole cents.",
    ),
    (
        Event::Enter(NewOrder {
            member: 6,
            side: Side::Sell,
            kind: OrderKind::Rpi,
            limit: 10_020,
            offset: Some(15),
            shares: 400,
        }),
        "Its price follows the offer.",
    ),
    (
        Event::Enter(NewOrder {
            member: 6,
            side: Side::Sell,
            kind: OrderKind::Displayed,
            limit: 10_050,
            offset: Some(10),
            shares: 400,
        }),
        "Only RPI Orders have an offset.",
    ),
    (
        Event::Quote(QuoteUpdate {
            centre: 3,
            side: Side::Buy,
            price: 10_010,
            size: 200,
        }),
        "It is the higher bid.",
    ),
    (
        Event::Quote(QuoteUpdate {
            centre: 4,
            side: Side::Buy,
            price: 10_030,
            size: 60,
        }),
        "It is an odd lot, so it is not shown.",
    ),
    (
        Event::Quote(QuoteUpdate {
            centre: 4,
            side: Side::Buy,
            price: 10_030,
            size: 160,
        }),
        "With a round lot it is shown.",
    ),
    (
        Event::Quote(QuoteUpdate {
            centre: 5,
            side: Side::Sell,
            price: 10_040,
            size: 100,
        }),
        "Exactly a round lot is shown.",
    ),
    (
        Event::Cancel {
            member: 4,
            number: 2,
        },
        "Order 2 is another member's.",
    ),
    (
        Event::Cancel {
            member: 4,
            number: 3,
        },
        "It leaves the book.",
    ),
    (
        Event::Quote(QuoteUpdate {
            centre: 4,
            side: Side::Buy,
            price: 0,
            size: 0,
        }),
        "The next best bid is protected again.",
    ),
    (Event::Exception(3), "Its bid need not be honoured."),
    (
        Event::Quote(QuoteUpdate {
            centre: 3,
            side: Side::Buy,
            price: 10_020,
            size: 400,
        }),
        "It is noted, and not shown under the exception.",
    ),
    (
        Event::Quote(QuoteUpdate {
            centre: 3,
            side: Side::Sell,
            price: 10_030,
            size: 400,
        }),
        "Its offer is not shown either.",
    ),
    (
        Event::Return(3),
        "What it was told in the meantime is shown.",
    ),
    (
        Event::Quote(QuoteUpdate {
            centre: 32,
            side: Side::Buy,
            price: 10_100,
            size: 100,
        }),
        "There is no centre 32.",
    ),
    (
        Event::Quote(QuoteUpdate {
            centre: 1,
            side: Side::Buy,
            price: 10_000_001,
            size: 100,
        }),
        "The highest price is $10000.000.",
    ),
    (
        Event::Quote(QuoteUpdate {
            centre: 1,
            side: Side::Sell,
            price: 10_010,
            size: 1_000_001,
        }),
        "The largest size is 1,000,000 shares.",
    ),
    (Event::Exception(40), "There is no centre 40."),
    (
        Event::Quote(QuoteUpdate {
            centre: 3,
            side: Side::Sell,
            price: 0,
            size: 0,
        }),
        "The next best offer is protected again.",
    ),
    (
        Event::Quote(QuoteUpdate {
            centre: 5,
            side: Side::Sell,
            price: 10_060,
            size: 100,
        }),
        "A centre's new quote replaces its former one.",
    ),
    (Event::Approve(7), "It may send Retail Orders."),
    (Event::Approve(65), "There is no member 65."),
    (
        Event::Retail(RetailOrder {
            member: 9,
            side: Side::Sell,
            kind: RetailType::One,
            limit: 10_000,
            shares: 800,
        }),
        "Member 9 may not send one.",
    ),
    (
        Event::Retail(RetailOrder {
            member: 7,
            side: Side::Sell,
            kind: RetailType::One,
            limit: 10_000,
            shares: 800,
        }),
        "Order 1 does not better the bid.",
    ),
    (
        Event::Enter(NewOrder {
            member: 3,
            side: Side::Buy,
            kind: OrderKind::Rpi,
            limit: 10_060,
            offset: Some(10),
            shares: 300,
        }),
        "The Retail Order took number 5.",
    ),
    (
        Event::Enter(NewOrder {
            member: 2,
            side: Side::Buy,
            kind: OrderKind::Rpi,
            limit: 10_035,
            offset: None,
            shares: 200,
        }),
        "It betters order 6.",
    ),
    (
        Event::Retail(RetailOrder {
            member: 7,
            side: Side::Sell,
            kind: RetailType::One,
            limit: 10_000,
            shares: 100,
        }),
        "The best price for the customer comes first.",
    ),
    (
        Event::Quote(QuoteUpdate {
            centre: 4,
            side: Side::Buy,
            price: 10_030,
            size: 200,
        }),
        "Order 6 is now ranked above order 7.",
    ),
    (
        Event::Retail(RetailOrder {
            member: 7,
            side: Side::Sell,
            kind: RetailType::One,
            limit: 10_000,
            shares: 350,
        }),
        "Now order 6 comes first.",
    ),
    (
        Event::Enter(NewOrder {
            member: 5,
            side: Side::Sell,
            kind: OrderKind::Hidden,
            limit: 10_050,
            offset: None,
            shares: 300,
        }),
        "Ordinary interest at the protected offer.",
    ),
    (
        Event::Enter(NewOrder {
            member: 8,
            side: Side::Sell,
            kind: OrderKind::Displayed,
            limit: 10_050,
            offset: None,
            shares: 100,
        }),
        "At one price displayed orders come first.",
    ),
    (
        Event::Retail(RetailOrder {
            member: 7,
            side: Side::Buy,
            kind: RetailType::Two,
            limit: 10_060,
            shares: 700,
        }),
        "A Type 2 also meets ordinary interest at the offer.",
    ),
    (
        Event::Retail(RetailOrder {
            member: 7,
            side: Side::Buy,
            kind: RetailType::TwoRoutable,
            limit: 10_050,
            shares: 500,
        }),
        "They wait on a slip.",
    ),
    (
        Event::Enter(NewOrder {
            member: 6,
            side: Side::Sell,
            kind: OrderKind::Rpi,
            limit: 10_020,
            offset: Some(15),
            shares: 400,
        }),
        "Its terms are those of order 4.",
    ),
    (
        Event::Enter(NewOrder {
            member: 5,
            side: Side::Sell,
            kind: OrderKind::Hidden,
            limit: 10_040,
            offset: None,
            shares: 200,
        }),
        "Ordinary interest that betters the offer.",
    ),
    (
        Event::Quote(QuoteUpdate {
            centre: 5,
            side: Side::Sell,
            price: 0,
            size: 0,
        }),
        "Only centre 2 still offers.",
    ),
    (Event::Exception(2), "No offer is protected."),
    (
        Event::Retail(RetailOrder {
            member: 7,
            side: Side::Buy,
            kind: RetailType::One,
            limit: 10_060,
            shares: 450,
        }),
        "There is no offer to better.",
    ),
    (
        Event::Retail(RetailOrder {
            member: 7,
            side: Side::Buy,
            kind: RetailType::Two,
            limit: 10_060,
            shares: 150,
        }),
        "A Type 2 meets ordinary interest all the same.",
    ),
    (Event::Return(2), "Order 14 has a price again."),
    (
        Event::Retail(RetailOrder {
            member: 7,
            side: Side::Buy,
            kind: RetailType::One,
            limit: 10_060,
            shares: 450,
        }),
        "The order that was cancelled before is filled now.",
    ),
    (
        Event::Retail(RetailOrder {
            member: 7,
            side: Side::Sell,
            kind: RetailType::TwoRoutable,
            limit: 10_030,
            shares: 80,
        }),
        "Routable again, now that the quotes have moved.",
    ),
    (
        Event::Phase(PhaseEvent::Halting),
        "No Retail Order may come.",
    ),
    (
        Event::Retail(RetailOrder {
            member: 7,
            side: Side::Sell,
            kind: RetailType::Two,
            limit: 10_000,
            shares: 100,
        }),
        "The day is halted.",
    ),
    (
        Event::Phase(PhaseEvent::Closing),
        "No order may be entered any more.",
    ),
    (
        Event::Enter(NewOrder {
            member: 2,
            side: Side::Buy,
            kind: OrderKind::Hidden,
            limit: 10_000,
            offset: None,
            shares: 100,
        }),
        "The day is closed.",
    ),
    (
        Event::Retail(RetailOrder {
            member: 7,
            side: Side::Sell,
            kind: RetailType::One,
            limit: 10_000,
            shares: 100,
        }),
        "Nor may a Retail Order come.",
    ),
    (
        Event::Cancel {
            member: 2,
            number: 1,
        },
        "An order may still be cancelled.",
    ),
    (
        Event::Draw(13),
        "The shares that waited go to be executed away.",
    ),
    (Event::Draw(13), "It is out already."),
    (
        Event::GiveBack {
            number: 13,
            shares: 400,
            away: 450,
        },
        "It stays out.",
    ),
    (
        Event::GiveBack {
            number: 13,
            shares: 400,
            away: 250,
        },
        "What was not executed away is cancelled.",
    ),
    (
        Event::GiveBack {
            number: 13,
            shares: 400,
            away: 250,
        },
        "It is back already.",
    ),
];
