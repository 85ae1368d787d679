//! Lines, fields and numbers on cases worked by hand.

use crate::fields::fields_of;
use crate::number::number;
use crate::reader::Reader;
use std::test::*;

#[test]
fn lines_with_a_last_one_unended(rt: HostRuntime) {
    let mut reader = Reader::new(b"I\n\nA,7");
    assert_eq!(rt; reader.next_line().map(|line| line.len()), Some(1));
    assert_eq!(rt; reader.next_line().map(|line| line.len()), Some(0));
    assert_eq!(rt; reader.next_line().map(|line| line.len()), Some(3));
    assert_eq!(rt; reader.next_line().map(|line| line.len()), None);
}

#[test]
fn eight_fields_with_a_blank_last(rt: HostRuntime) {
    let places = fields_of(b"E,12,B,H,1000,,25,").map(|f| (
        f.call.place,
        f.offset.place,
        f.order.place,
    ));
    assert_eq!(rt; places, Some((1, 15, 19)));
    assert!(rt; fields_of(b"E,12,B,H,1000,,25").is_none());
    assert!(rt; fields_of(b"").is_none());
}

#[test]
fn numbers(rt: HostRuntime) {
    assert_eq!(rt; number(b"007"), Some(7));
    assert_eq!(rt; number(b"999999999"), Some(999_999_999));
    assert_eq!(rt; number(b"0000000001"), None);
    assert_eq!(rt; number(b"12a"), None);
    assert_eq!(rt; number(b""), None);
}
