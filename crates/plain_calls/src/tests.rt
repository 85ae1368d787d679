//! A list of calls with every letter, every field of an answer and every end, worked by hand from the rules.

use crate::answers::{PlainAnswer, PlainBest, PlainFill};
use crate::calls::PlainCall;
use crate::protecting::protect_calls;
use crate::running::{Answered, End, answer_calls};
use std::test::*;

const BLANK: PlainCall = PlainCall {
    call: 0,
    side: 0,
    kind: 0,
    has_offset: false,
    who: 0,
    price: 0,
    offset: 0,
    shares: 0,
    number: 0,
    away: 0,
};

// Centre 0 quotes 100 shares on both sides.
const BID: PlainCall = PlainCall {
    call: b'T',
    side: b'B',
    price: 10_000,
    shares: 100,
    ..BLANK
};

const OFFER: PlainCall = PlainCall {
    side: b'S',
    price: 10_020,
    ..BID
};

// An RPI Order to sell, one to buy at the bid plus 20, and one to buy at its limit: without the flag the number beside it is
// no offset.
const SELL_RPI: PlainCall = PlainCall {
    call: b'E',
    side: b'S',
    kind: b'R',
    who: 7,
    price: 10_015,
    shares: 100,
    ..BLANK
};

const BUY_AT_OFFSET: PlainCall = PlainCall {
    side: b'B',
    who: 2,
    has_offset: true,
    price: 10_040,
    offset: 20,
    shares: 300,
    ..SELL_RPI
};

const BUY_AT_LIMIT: PlainCall = PlainCall {
    has_offset: false,
    price: 10_015,
    offset: 5,
    shares: 200,
    ..BUY_AT_OFFSET
};

const HIDDEN: PlainCall = PlainCall {
    kind: b'H',
    price: 10_000,
    shares: 70,
    ..BUY_AT_LIMIT
};

const DISPLAYED: PlainCall = PlainCall {
    side: b'S',
    kind: b'D',
    price: 10_030,
    shares: 90,
    ..HIDDEN
};

// An offset of 0 is one, and out of range.
const ZERO_OFFSET: PlainCall = PlainCall {
    offset: 0,
    ..BUY_AT_OFFSET
};

const APPROVAL: PlainCall = PlainCall {
    call: b'A',
    who: 3,
    ..BLANK
};

const WITHDRAWAL: PlainCall = PlainCall {
    call: b'W',
    ..APPROVAL
};

const OPENING: PlainCall = PlainCall {
    call: b'P',
    kind: b'O',
    ..BLANK
};

const HALTING: PlainCall = PlainCall {
    kind: b'H',
    ..OPENING
};

const CLOSING: PlainCall = PlainCall {
    kind: b'C',
    ..OPENING
};

// A Retail Order of each type.
const SELL_ONE: PlainCall = PlainCall {
    call: b'R',
    side: b'S',
    kind: b'1',
    who: 3,
    price: 10_000,
    shares: 600,
    ..BLANK
};

const SELL_OF_ANOTHER: PlainCall = PlainCall { who: 6, ..SELL_ONE };

const BUY_TWO: PlainCall = PlainCall {
    side: b'B',
    kind: b'2',
    price: 10_030,
    shares: 40,
    ..SELL_ONE
};

const BUY_ROUTABLE: PlainCall = PlainCall {
    kind: b'3',
    price: 10_020,
    shares: 150,
    ..BUY_TWO
};

// The slip is drawn, and comes back with 30 of its shares executed away.
const DRAW: PlainCall = PlainCall {
    call: b'D',
    number: 7,
    ..BLANK
};

const BACK: PlainCall = PlainCall {
    call: b'B',
    shares: 50,
    away: 30,
    ..DRAW
};

const CANCEL: PlainCall = PlainCall {
    call: b'C',
    who: 2,
    number: 4,
    ..BLANK
};

const EXCEPTION: PlainCall = PlainCall {
    call: b'X',
    ..BLANK
};

const LIFTING: PlainCall = PlainCall {
    call: b'L',
    ..BLANK
};

const DONE: PlainAnswer = PlainAnswer {
    refusal: 0,
    number: 0,
    shares: 0,
    cancelled: 0,
    waiting: 0,
    fills: 0,
};

// A refusal.
fn refused(refusal: u32) -> PlainAnswer {
    PlainAnswer { refusal, ..DONE }
}

// A number and shares.
fn told(number: u32, shares: u32) -> PlainAnswer {
    traded(number, shares, 0, 0, 0)
}

// The same, what is cancelled, what waits, and how many fills there are.
fn traded(number: u32, shares: u32, cancelled: u32, waiting: u32, fills: usize) -> PlainAnswer {
    PlainAnswer {
        refusal: 0,
        number,
        shares,
        cancelled,
        waiting,
        fills,
    }
}

const COUNT: usize = 27;

// Each call, and what it is answered.
fn steps() -> [(PlainCall, PlainAnswer); COUNT] {
    [
        (BID, DONE),
        (OFFER, DONE),
        (SELL_RPI, told(1, 100)),
        (BUY_AT_OFFSET, told(2, 300)),
        (BUY_AT_LIMIT, told(3, 200)),
        (HIDDEN, told(4, 70)),
        (DISPLAYED, told(5, 90)),
        (ZERO_OFFSET, refused(1)),
        // not before the opening
        (SELL_ONE, refused(4)),
        (APPROVAL, DONE),
        (OPENING, DONE),
        (SELL_OF_ANOTHER, refused(5)),
        // Orders 2 and 3 better the bid, order 4 does not, and the rest is cancelled.
        (SELL_ONE, traded(6, 500, 100, 0, 2)),
        // Order 1 betters the offer, and the rest waits.
        (BUY_ROUTABLE, traded(7, 100, 0, 50, 1)),
        (DRAW, told(7, 50)),
        (BACK, traded(7, 30, 20, 0, 0)),
        (BACK, refused(12)),
        (CANCEL, told(4, 70)),
        (CANCEL, refused(9)),
        (EXCEPTION, DONE),
        // Where there is no offer a Type 2 meets the displayed order at its limit.
        (BUY_TWO, traded(8, 40, 0, 0, 1)),
        (LIFTING, DONE),
        (WITHDRAWAL, DONE),
        (SELL_ONE, refused(5)),
        (HALTING, DONE),
        (CLOSING, DONE),
        (DRAW, refused(11)),
    ]
}

fn fill(number: u32, price: u32, shares: u32) -> PlainFill {
    PlainFill {
        number,
        price,
        shares,
    }
}

fn ended(end: End, calls: usize, fills: usize) -> Answered {
    Answered { end, calls, fills }
}

#[test]
fn a_list_is_answered(rt: HostRuntime) -> Result<(), Fail> {
    let (calls, expected) = (steps().map(|step| step.0), steps().map(|step| step.1));
    let mut answers = [refused(99); COUNT];
    let mut fills = vec![in rt.alloc(); fill(0, 0, 0); 260]?;
    let answered = answer_calls(rt.alloc(), &calls, &mut answers, &mut fills);
    assert_eq!(rt; answered, ended(End::Done, COUNT, 4));
    assert_eq!(rt; answers, expected);
    let given = [
        fill(2, 10_020, 300),
        fill(3, 10_015, 200),
        fill(1, 10_015, 100),
        fill(5, 10_030, 40),
        fill(0, 0, 0),
    ];
    assert!(rt; fills.starts_with(&given));
    Ok(())
}

#[test]
fn a_list_ends_where_it_must(rt: HostRuntime) -> Result<(), Fail> {
    // the letter of the sixth call, the places for answers and for fills, and the end
    let cases = [
        // after three fills there are no 256 free places
        (b'E', COUNT, 258, ended(End::ShortList, 14, 3)),
        (b'E', 5, 260, ended(End::ShortList, 5, 0)),
        (b'Q', COUNT, 260, ended(End::NoSuchCall, 5, 0)),
        // the letters are looked at before the places
        (b'Q', 5, 260, ended(End::NoSuchCall, 5, 0)),
    ];
    let mut calls = steps().map(|step| step.0);
    for (letter, places, fill_places, expected) in cases {
        calls[5].call = letter;
        let mut answers = vec![in rt.alloc(); DONE; places]?;
        let mut fills = vec![in rt.alloc(); fill(0, 0, 0); fill_places]?;
        let answered = answer_calls(rt.alloc(), &calls, &mut answers, &mut fills);
        assert_eq!(rt; answered, expected);
    }
    Ok(())
}

#[test]
fn a_letter_that_stands_for_nothing_is_no_call(rt: HostRuntime) {
    let unknown = [
        PlainCall {
            call: b'e',
            ..HIDDEN
        },
        PlainCall { side: 0, ..HIDDEN },
        PlainCall {
            kind: b'1',
            ..HIDDEN
        },
        PlainCall {
            side: b's',
            ..SELL_ONE
        },
        PlainCall {
            kind: b'R',
            ..SELL_ONE
        },
        PlainCall { side: b'Q', ..BID },
        PlainCall {
            kind: b'R',
            ..OPENING
        },
    ];
    for call in unknown {
        assert_eq!(rt; call.meant(), None);
    }
}

#[test]
fn quotes_are_protected(rt: HostRuntime) {
    // a size below the round lot is not shown, a price of 0 is out of range, and a size of 0 takes the quote away
    let odd_lot = PlainCall {
        price: 10_010,
        shares: 99,
        ..BID
    };
    let no_price = PlainCall { price: 0, ..OFFER };
    let taken_away = PlainCall { shares: 0, ..BID };
    let calls = [
        OFFER, BID, EXCEPTION, LIFTING, no_price, taken_away, BID, odd_lot, APPROVAL, BID,
    ];
    let told = [
        (0, 10_020),
        (10_000, 10_020),
        (0, 0),
        (10_000, 10_020),
        (10_000, 10_020),
        (0, 10_020),
        (10_000, 10_020),
        (0, 10_020),
        (7, 7),
        (7, 7),
    ];
    let mut best = [PlainBest { bid: 7, offer: 7 }; 10];
    assert_eq!(rt; protect_calls(&calls, &mut best), 8);
    assert_eq!(rt; best, told.map(|(bid, offer)| PlainBest { bid, offer }));
    // the bid alone, and where the list ends
    let mut one = [PlainBest { bid: 7, offer: 7 }];
    assert_eq!(rt; protect_calls(&[BID, OFFER], &mut one), 1);
    assert_eq!(rt;
        one,
        [PlainBest {
            bid: 10_000,
            offer: 0
        }]
    );
}
