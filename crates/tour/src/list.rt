//! The list of events that is run over two stacks of quotes.

use desk::events::Event;
use terms::market::{QuoteUpdate, Side};
use terms::orders::{NewOrder, OrderKind, PhaseEvent, RetailOrder, RetailType};

/// Quotes that one stack shows and the other does not, orders that follow them, and a Retail Order of each type.
pub const LIST: [Event; 19] = [
    Event::Phase(PhaseEvent::Opening),
    Event::Approve(7),
    Event::Quote(QuoteUpdate {
        centre: 1,
        side: Side::Buy,
        price: 10_000,
        size: 300,
    }),
    Event::Quote(QuoteUpdate {
        centre: 2,
        side: Side::Sell,
        price: 10_050,
        size: 300,
    }),
    // fewer shares than a round lot
    Event::Quote(QuoteUpdate {
        centre: 3,
        side: Side::Buy,
        price: 10_010,
        size: 60,
    }),
    // a centre that only the scan table has
    Event::Quote(QuoteUpdate {
        centre: 16,
        side: Side::Sell,
        price: 10_040,
        size: 200,
    }),
    Event::Enter(NewOrder {
        member: 2,
        side: Side::Buy,
        kind: OrderKind::Rpi,
        limit: 10_015,
        offset: None,
        shares: 500,
    }),
    Event::Enter(NewOrder {
        member: 3,
        side: Side::Buy,
        kind: OrderKind::Rpi,
        limit: 10_040,
        offset: Some(20),
        shares: 100,
    }),
    Event::Enter(NewOrder {
        member: 6,
        side: Side::Sell,
        kind: OrderKind::Rpi,
        limit: 10_020,
        offset: Some(10),
        shares: 400,
    }),
    Event::Enter(NewOrder {
        member: 5,
        side: Side::Sell,
        kind: OrderKind::Hidden,
        limit: 10_050,
        offset: None,
        shares: 300,
    }),
    Event::Retail(RetailOrder {
        member: 7,
        side: Side::Sell,
        kind: RetailType::One,
        limit: 10_000,
        shares: 150,
    }),
    Event::Exception(3),
    Event::Retail(RetailOrder {
        member: 7,
        side: Side::Buy,
        kind: RetailType::Two,
        limit: 10_060,
        shares: 500,
    }),
    Event::Retail(RetailOrder {
        member: 7,
        side: Side::Sell,
        kind: RetailType::TwoRoutable,
        limit: 10_000,
        shares: 600,
    }),
    Event::Draw(7),
    Event::GiveBack {
        number: 7,
        shares: 150,
        away: 100,
    },
    // another member's order
    Event::Cancel {
        member: 9,
        number: 4,
    },
    Event::Enter(NewOrder {
        member: 3,
        side: Side::Buy,
        kind: OrderKind::Rpi,
        limit: 10_060,
        offset: Some(5),
        shares: 200,
    }),
    Event::Return(3),
];
