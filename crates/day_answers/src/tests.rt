//! One line of each code, as the description of the answers has it.

use crate::answer::{AnswerLine, Code};
use crate::bytes::{put_answer, put_head};
use std::test::Fail;

// A line by its values, and how it is written.
// Form: a tuple and no struct, whose field names would stand in every case.
type Case = (
    u32,
    Code,
    Option<u32>,
    Option<u32>,
    Option<u32>,
    &'static str,
);

const CASES: [Case; 16] = [
    (
        2,
        Code::Fill,
        Some(7),
        Some(10_050),
        Some(100),
        "2,F,7,10050,100\n",
    ),
    (2, Code::Filled, Some(8), None, Some(100), "2,R,8,,100\n"),
    (2, Code::Cancelled, Some(8), None, Some(200), "2,K,8,,200\n"),
    (3, Code::Waiting, Some(9), None, Some(300), "3,S,9,,300\n"),
    (4, Code::Away, Some(9), None, Some(0), "4,B,9,,0\n"),
    (1, Code::Refused, Some(25), None, Some(0), "1,N,25,,0\n"),
    (5, Code::Refused, Some(4), None, None, "5,N,4,,\n"),
    (
        6,
        Code::Entered,
        Some(500_000),
        None,
        Some(1_000_000),
        "6,E,500000,,1000000\n",
    ),
    (7, Code::Left, Some(1), None, Some(50), "7,C,1,,50\n"),
    (8, Code::Approved, None, None, None, "8,A,,,\n"),
    (9, Code::Withdrawn, None, None, None, "9,W,,,\n"),
    (10, Code::Told, None, None, None, "10,T,,,\n"),
    (11, Code::Moved, None, None, None, "11,P,,,\n"),
    (12, Code::Declared, None, None, None, "12,X,,,\n"),
    (13, Code::Lifted, None, None, None, "13,L,,,\n"),
    (
        4_294_967_295,
        Code::Identifier,
        Some(3),
        None,
        None,
        "4294967295,I,3,,\n",
    ),
];

#[test]
fn each_code_is_written(rt: HostRuntime) -> Result<(), Fail> {
    let mut out = Vec::new(rt.alloc());
    put_head(&mut out)?;
    assert_eq!(rt; out.as_slice(), b"line,code,ref,price,shares\n".as_slice());
    for (line, code, number, price, shares, text) in CASES {
        out.clear();
        let answer = AnswerLine {
            line,
            code,
            number,
            price,
            shares,
        };
        put_answer(&mut out, answer)?;
        assert_eq!(rt; out.as_slice(), text.as_bytes());
    }
    Ok(())
}
