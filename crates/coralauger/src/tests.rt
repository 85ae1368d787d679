//! The ends of the three functions by their numbers, and the longest day.

use crate::{PlainDay, PlainRun, coralauger_answer_day, coralauger_protect, coralauger_run};
use plain_calls::answers::{PlainAnswer, PlainBest, PlainFill};
use plain_calls::calls::PlainCall;
use std::test::*;

const APPROVAL: PlainCall = PlainCall {
    call: b'A',
    side: 0,
    kind: 0,
    has_offset: false,
    who: 3,
    price: 0,
    offset: 0,
    shares: 0,
    number: 0,
    away: 0,
};

const UNTOLD: PlainAnswer = PlainAnswer {
    refusal: 99,
    number: 0,
    shares: 0,
    cancelled: 0,
    waiting: 0,
    fills: 0,
};

const NO_FILL: PlainFill = PlainFill {
    number: 0,
    price: 0,
    shares: 0,
};

#[test]
fn a_run_ends_by_number(rt: HostRuntime) -> Result<(), Fail> {
    // the letter of the second call, the places for answers and for fills, and the number of the end with the calls answered
    let cases = [
        (b'A', 2, 256, 0, 2),
        (b'Z', 2, 256, 2, 1),
        (b'A', 1, 256, 3, 1),
        (b'A', 2, 255, 3, 0),
    ];
    for (letter, places, fill_places, end, calls) in cases {
        let second = PlainCall {
            call: letter,
            ..APPROVAL
        };
        let mut answers = vec![in rt.alloc(); UNTOLD; places]?;
        let mut fills = vec![in rt.alloc(); NO_FILL; fill_places]?;
        let run = coralauger_run(rt.alloc(), &[APPROVAL, second], &mut answers, &mut fills);
        let expected = PlainRun {
            end,
            calls,
            fills: 0,
        };
        assert_eq!(rt; run, expected);
    }
    Ok(())
}

#[test]
fn an_absent_price_is_0(rt: HostRuntime) {
    let offer = PlainCall {
        call: b'T',
        side: b'S',
        price: 10_020,
        shares: 100,
        ..APPROVAL
    };
    let mut best = [PlainBest { bid: 7, offer: 7 }; 2];
    assert_eq!(rt; coralauger_protect(&[offer, APPROVAL], &mut best), 1);
    let after = PlainBest {
        bid: 0,
        offer: 10_020,
    };
    assert_eq!(rt; best, [after, PlainBest { bid: 7, offer: 7 }]);
}

// The header line and 65,493 empty lines have the 65,536 bytes that a file may have. Each of the lines 2 to 65,494 is
// answered with fault 21 in 9 bytes and its own number, and the first line of the answers has 27 bytes: in all
// 27 + 8 * 10 + 90 * 11 + 900 * 12 + 9,000 * 13 + 55,495 * 14 bytes.
#[test]
fn the_longest_day_is_answered(rt: HostRuntime) -> Result<(), Fail> {
    let mut day = b"call,who,side,kind,price,offset,shares,ref\n".to_vec(rt.alloc())?;
    for _ in 0..65_493 {
        day.push(b'\n')?;
    }
    let mut answers = vec![in rt.alloc(); b'?'; 905_828]?;
    let done = coralauger_answer_day(rt.alloc(), &day, &mut answers);
    assert_eq!(rt;
        done,
        PlainDay {
            end: 0,
            bytes: 905_827
        }
    );
    assert!(rt; answers.starts_with(b"line,code,ref,price,shares\n2,N,21,,0\n3,N,21,,0\n"));
    assert!(rt; answers.ends_with(b"\n65493,N,21,,0\n65494,N,21,,0\n?"));
    let mut few = vec![in rt.alloc(); b'?'; 905_826]?;
    let short = coralauger_answer_day(rt.alloc(), &day, &mut few);
    assert_eq!(rt;
        short,
        PlainDay {
            end: 3,
            bytes: 905_827
        }
    );
    assert!(rt; few.ends_with(b"??"));
    // a file that is one byte longer has one answer
    day.push(b'\n')?;
    let fault = coralauger_answer_day(rt.alloc(), &day, &mut few);
    assert_eq!(rt; fault, PlainDay { end: 0, bytes: 37 });
    assert!(rt; few.starts_with(b"line,code,ref,price,shares\n1,N,25,,0\n?"));
    Ok(())
}
