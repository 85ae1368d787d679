//! Writing the answers of a day after what is written already. An answer is written from its last byte to its first, since
//! the digits of a number come up in that order.

ghost use Rattle.std.specs.Prelude.{◌≡◌, ◌+◌, ◌<◌, ◌≤◌, ◌∷◌, ◌++◌, length, drop, OnErr, if◌then◌else◌, is_ok, vec_items, vec_len, vec_capacity};
ghost use Rattle.day_answers.specs.Written.{answer_bytes, field, head_bytes, letter};

use crate::answer::{AnswerLine, Code};
use itoa::write_digits;
use std::alloc::AllocError;

// The most bytes that a line has: four numbers of ten digits, a letter, four commas and the byte that ends it.
const MAX_ANSWER: usize = 46;

// The letter of a code.
fn letter_of(code: Code) -> u8
    ensures { result ≡ letter code }
{
    match code {
        Code::Fill => b'F',
        Code::Filled => b'R',
        Code::Cancelled => b'K',
        Code::Waiting => b'S',
        Code::Away => b'B',
        Code::Refused => b'N',
        Code::Entered => b'E',
        Code::Left => b'C',
        Code::Approved => b'A',
        Code::Withdrawn => b'W',
        Code::Told => b'T',
        Code::Moved => b'P',
        Code::Declared => b'X',
        Code::Lifted => b'L',
        Code::Identifier => b'I',
    }
}

// Writes a byte just before `end`, and returns where it stands.
#[inline(always)]
fn put_byte(row: &mut [u8], end: usize, byte: u8) -> usize
    requires room { 1 ≤ end }
    requires within { end ≤ length row.old }
    ensures start { result + 1 ≡ end }
    ensures written { drop result row.new ≡ byte ∷ drop end row.old }
{
    row[end - 1] = byte;
    end - 1
}

// Writes a number just before `end`, or nothing where the field is blank, and returns where the field begins.
#[inline(always)]
fn put_number(row: &mut [u8], end: usize, number: Option<u32>) -> usize
    requires room { 10 ≤ end }
    requires within { end ≤ length row.old }
    ensures start { result + length (field number) ≡ end }
    ensures ten_digits { end ≤ result + 10 }
    ensures written { drop result row.new ≡ field number ++ drop end row.old }
{
    match number {
        Some(number) => write_digits(u64::from(number), row, end),
        None => end,
    }
}

/// Writes one line, or leaves the bytes as they were if memory runs out.
pub fn put_answer(out: &mut Vec<u8>, answer: AnswerLine) -> Result<(), AllocError>
    ensures bytes { vec_items out.new ≡ (if is_ok result then vec_items out.old ++ answer_bytes answer else vec_items out.old) }
    ensures full { OnErr result (vec_capacity out.old < vec_len out.old + length (answer_bytes answer)) }
{
    let mut row = [0; MAX_ANSWER];
    let at = put_byte(&mut row, MAX_ANSWER, b'\n');
    let at = put_number(&mut row, at, answer.shares);
    let at = put_byte(&mut row, at, b',');
    let at = put_number(&mut row, at, answer.price);
    let at = put_byte(&mut row, at, b',');
    let at = put_number(&mut row, at, answer.number);
    let at = put_byte(&mut row, at, b',');
    let at = put_byte(&mut row, at, letter_of(answer.code));
    let at = put_byte(&mut row, at, b',');
    let at = put_number(&mut row, at, Some(answer.line));
    out.extend_from_slice(&row[at..])
}

/// Writes the header line, or leaves the bytes as they were if memory runs out.
pub fn put_head(out: &mut Vec<u8>) -> Result<(), AllocError>
    ensures bytes { vec_items out.new ≡ (if is_ok result then vec_items out.old ++ head_bytes else vec_items out.old) }
    ensures full { OnErr result (vec_capacity out.old < vec_len out.old + length head_bytes) }
{
    out.extend_from_slice(b"line,code,ref,price,shares\n")
}
