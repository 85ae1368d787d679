//! Lines on cases worked by hand.

use crate::fault::{Fault, FaultKind};
use crate::line::{FILL_PLACES, Line};
use crate::reading::{BAD_LINE, read_line};
use std::test::*;
use terms::calls::Call;
use terms::market::{QuoteCall, QuoteUpdate, Side};
use terms::orders::{NewOrder, OrderKind, PhaseEvent, RetailOrder, RetailType};

fn fault(kind: FaultKind, place: u32) -> Result<Line, Fault> {
    Err(Fault { kind, place })
}

#[test]
fn orders(rt: HostRuntime) {
    let entered = Line::Call(Call::Enter(NewOrder {
        member: 7,
        side: Side::Sell,
        kind: OrderKind::Rpi,
        limit: 10_010,
        offset: Some(3),
        shares: 500,
    }));
    assert_eq!(rt; read_line(b"E,7,S,R,10010,3,500,"), Ok(entered));
    assert_eq!(rt; read_line(b"E,007,S,R,010010,3,0500,"), Ok(entered));
    let sent = Line::Call(Call::Retail {
        order: RetailOrder {
            member: 3,
            side: Side::Buy,
            kind: RetailType::TwoRoutable,
            limit: 10_060,
            shares: 800,
        },
        places: FILL_PLACES,
    });
    assert_eq!(rt; read_line(b"R,3,B,3,10060,,800,"), Ok(sent));
    let cancelled = Line::Call(Call::Cancel {
        member: 7,
        number: 12,
    });
    assert_eq!(rt; read_line(b"C,7,,,,,,12"), Ok(cancelled));
}

#[test]
fn quotes(rt: HostRuntime) {
    let told = Line::Call(Call::Quotes(QuoteCall::Tell(QuoteUpdate {
        centre: 2,
        side: Side::Buy,
        price: 0,
        size: 0,
    })));
    assert_eq!(rt; read_line(b"T,2,B,,,,0,"), Ok(told));
    assert_eq!(rt;
        read_line(b"X,9,,,,,,"),
        Ok(Line::Call(Call::Quotes(QuoteCall::Declare(9))))
    );
    assert_eq!(rt;
        read_line(b"L,9,,,,,,"),
        Ok(Line::Call(Call::Quotes(QuoteCall::Lift(9))))
    );
}

#[test]
fn the_day(rt: HostRuntime) {
    assert_eq!(rt;
        read_line(b"P,,,C,,,,"),
        Ok(Line::Call(Call::Move(PhaseEvent::Closing)))
    );
    assert_eq!(rt;
        read_line(b"A,64,,,,,,"),
        Ok(Line::Call(Call::Approve { member: 64 }))
    );
    assert_eq!(rt;
        read_line(b"W,64,,,,,,"),
        Ok(Line::Call(Call::Withdraw { member: 64 }))
    );
    assert_eq!(rt;
        read_line(b"S,,,,,,250,41"),
        Ok(Line::Route {
            number: 41,
            away: 250
        })
    );
    assert_eq!(rt; read_line(b"I,,,,,,,"), Ok(Line::Identify));
}

#[test]
fn faults(rt: HostRuntime) {
    assert_eq!(rt; read_line(b""), Err(BAD_LINE));
    assert_eq!(rt; read_line(b"I,,,,,,"), Err(BAD_LINE));
    assert_eq!(rt; read_line(b"I,,,,,,,,"), Err(BAD_LINE));
    assert_eq!(rt; read_line(b",7,,,,,,"), fault(FaultKind::Blank, 1));
    assert_eq!(rt;
        read_line(b"EE,7,,,,,,"),
        fault(FaultKind::UnknownLetter, 1)
    );
    assert_eq!(rt; read_line(b"e,7,,,,,,"), fault(FaultKind::UnknownLetter, 1));
    // A digit that is no type, and a type that is no kind.
    assert_eq!(rt;
        read_line(b"R,3,B,4,10060,,800,"),
        fault(FaultKind::UnknownLetter, 7)
    );
    assert_eq!(rt;
        read_line(b"E,3,B,1,10060,,800,"),
        fault(FaultKind::UnknownLetter, 7)
    );
    // Ten digits, although the first is a zero.
    assert_eq!(rt;
        read_line(b"A,0000000001,,,,,,"),
        fault(FaultKind::NotDigits, 3)
    );
    // The leftmost of two, and a carriage return in the last field, which is not used.
    assert_eq!(rt;
        read_line(b"E,3,B,R,-1,x,800,"),
        fault(FaultKind::NotDigits, 9)
    );
    assert_eq!(rt; read_line(b"P,,,O,,,,\r"), fault(FaultKind::Blank, 10));
    // A blank field that is used has the place where its first byte would stand.
    assert_eq!(rt; read_line(b"C,7,,,,,,"), fault(FaultKind::Blank, 10));
}

#[test]
fn long_lines(rt: HostRuntime) {
    // 120 bytes are good, 121 too long.
    let good =
        b"I,,,,,,,xxxxxxxxxxxxxxxxxxxxxxxxxxxxxxxxxxxxxxxxxxxxxxxxxxxxxxxxxxxxxxxxxxxxxxxxxxxxxxxxxxxxxxxxxxxxxxxxxxxxxxxxxxxxxxxx";
    let long =
        b"I,,,,,,,xxxxxxxxxxxxxxxxxxxxxxxxxxxxxxxxxxxxxxxxxxxxxxxxxxxxxxxxxxxxxxxxxxxxxxxxxxxxxxxxxxxxxxxxxxxxxxxxxxxxxxxxxxxxxxxxx";
    assert_eq!(rt; good.len(), 120);
    assert_eq!(rt; read_line(good), fault(FaultKind::Blank, 9));
    assert_eq!(rt; read_line(long), Err(BAD_LINE));
}
