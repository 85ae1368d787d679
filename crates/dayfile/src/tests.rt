//! Day files and their answers, on cases worked by hand.

use crate::answering::answer_day;
use std::test::*;

// A day in which the bid is 10,000, so that order 2 is ranked at 10,020 and is filled before order 1. The remainder of the
// Retail Order is cancelled, and the RPI Order that still rests does not better the bid by enough to count as interest.
const SHORT_DAY: &str = "call,who,side,kind,price,offset,shares,ref
A,5,,,,,,
P,,,O,,,,
T,1,B,,10000,,300,
E,2,B,R,10015,,500,
E,3,B,R,10040,20,100,
R,5,S,1,10000,,800,
I,,,,,,,
";

const SHORT_ANSWERS: &str = "line,code,ref,price,shares
2,A,,,
3,P,,,
4,T,,,
5,E,1,,500
6,E,2,,100
7,F,2,10020,100
7,F,1,10015,500
7,R,3,,600
7,K,3,,200
8,I,0,,
";

// The same with every other letter of an answer, and faults of two lines: the Retail Order has the number 3 again, and 200
// of its shares wait.
const DAY: &str = "call,who,side,kind,price,offset,shares,ref
A,5,,,,,,
P,,,O,,,,
T,1,B,,10000,,300,
E,2,B,R,10015,,500,
E,2,B,R,10040,20,100,
I,,,,,,,
R,5,S,3,10000,,800,
S,,,,,,201,3
S,,,,,,150,3
S,,,,,,0,3
C,2,,,,,,1
E,2,B,Q,1,,1,
X,1,,,,,,
L,1,,,,,,
W,5,,,,,,
E,2,S,H,10020,,10,

C,2,,,,,,4
R,5,S,1,10000,,800,
P,,,C,,,,";

const ANSWERS: &str = "line,code,ref,price,shares
2,A,,,
3,P,,,
4,T,,,
5,E,1,,500
6,E,2,,100
7,I,1,,
8,F,2,10020,100
8,F,1,10015,500
8,R,3,,600
8,S,3,,200
9,N,13,,
10,B,3,,150
10,K,3,,50
11,N,11,,
12,N,9,,
13,N,23,,7
14,X,,,
15,L,,,
16,W,,,
17,E,4,,10
18,N,21,,0
19,C,4,,10
20,N,5,,
21,P,,,
";

#[test]
fn a_day_is_answered(rt: HostRuntime) -> Result<(), Fail> {
    for (day, told) in [(SHORT_DAY, SHORT_ANSWERS), (DAY, ANSWERS)] {
        let answers = answer_day(rt.alloc(), day.as_bytes())?;
        assert_eq!(rt; answers.as_slice(), told.as_bytes());
    }
    Ok(())
}

#[test]
fn a_slip_executed_away_whole_leaves_no_rest(rt: HostRuntime) -> Result<(), Fail> {
    let answers = answer_day(
        rt.alloc(),
        b"call,who,side,kind,price,offset,shares,ref\nA,5,,,,,,\nP,,,O,,,,\nR,5,B,3,10000,,80,\nS,,,,,,80,1\n",
    )?;
    assert_eq!(rt;
        answers.as_slice(),
        "line,code,ref,price,shares\n2,A,,,\n3,P,,,\n4,R,1,,0\n4,S,1,,80\n5,B,1,,80\n".as_bytes()
    );
    Ok(())
}

// Small files, and the answers after the header line of the answers.
const FILES: &[(&str, &str)] = &[
    ("", "1,N,20,,0\n"),
    ("\n", "1,N,20,,0\n"),
    ("call,who,side,kind,price,offset,shares,ref", ""),
    ("call,who,side,kind,price,offset,shares,ref\n", ""),
    (
        "call,who,side,kind,price,offset,shares,ref\n\n",
        "2,N,21,,0\n",
    ),
    (
        "Call,who,side,kind,price,offset,shares,ref\nI,,,,,,,\n",
        "1,N,20,,0\n",
    ),
    (
        "call,who,side,kind,price,offset,shares,ref \n",
        "1,N,20,,0\n",
    ),
    ("call,who,side,kind,price,offset,shares\n", "1,N,20,,0\n"),
    (
        "\u{feff}call,who,side,kind,price,offset,shares,ref\n",
        "1,N,20,,0\n",
    ),
    (
        "call,who,side,kind,price,offset,shares,ref\r\nI,,,,,,,\n",
        "1,N,20,,0\n",
    ),
    (
        "call,who,side,kind,price,offset,shares,ref\nI,,,,,,,\r\nI,,,,,,,",
        "2,N,22,,9\n3,I,0,,\n",
    ),
    // A line of 120 bytes, whose last field has more than nine digits, and one of 121.
    (
        "call,who,side,kind,price,offset,shares,ref\nC,2,,,,,,000000000000000000000000000000000000000000000000000000000000000000000000000000000000000000000000000000000000001",
        "2,N,24,,10\n",
    ),
    (
        "call,who,side,kind,price,offset,shares,ref\nC,2,,,,,,0000000000000000000000000000000000000000000000000000000000000000000000000000000000000000000000000000000000000001",
        "2,N,21,,0\n",
    ),
];

#[test]
fn a_small_file_is_answered(rt: HostRuntime) -> Result<(), Fail> {
    for (file, after) in FILES {
        let answers = answer_day(rt.alloc(), file.as_bytes())?;
        let mut told = Vec::new(rt.alloc());
        told.extend_from_slice(b"line,code,ref,price,shares\n")?;
        told.extend_from_slice(after.as_bytes())?;
        assert_eq!(rt; answers.as_slice(), told.as_slice());
    }
    Ok(())
}

#[test]
fn a_file_is_as_long_as_it_may_be(rt: HostRuntime) -> Result<(), Fail> {
    let mut file = String::new(rt.alloc());
    file.push_str("call,who,side,kind,price,offset,shares,ref\n")?;
    for _ in 0..7_277 {
        file.push_str("I,,,,,,,\n")?;
    }
    assert_eq!(rt; file.len(), 65_536);
    let answers = answer_day(rt.alloc(), file.as_bytes())?;
    assert!(rt; answers.as_slice().ends_with(b"\n7278,I,0,,\n"));
    file.push('I')?;
    let long = answer_day(rt.alloc(), file.as_bytes())?;
    assert_eq!(rt;
        long.as_slice(),
        "line,code,ref,price,shares\n1,N,25,,0\n".as_bytes()
    );
    Ok(())
}

#[test]
fn the_fault_of_its_length_comes_first(rt: HostRuntime) -> Result<(), Fail> {
    let long = answer_day(rt.alloc(), &[b'\n'; 65_537])?;
    assert_eq!(rt;
        long.as_slice(),
        "line,code,ref,price,shares\n1,N,25,,0\n".as_bytes()
    );
    let blank = answer_day(rt.alloc(), &[b'\n'; 65_536])?;
    assert_eq!(rt;
        blank.as_slice(),
        "line,code,ref,price,shares\n1,N,20,,0\n".as_bytes()
    );
    Ok(())
}
