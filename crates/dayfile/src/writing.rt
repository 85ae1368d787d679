//! Writing what a call is answered, after what is written already.

ghost use Rattle.std.specs.Prelude.{◌≡◌, ◌≤◌, [], ◌∷◌, ◌++◌, length, map, OnOk, vec_items};
ghost use Rattle.book.specs.Means.{cancelled_in, trade_of, waiting_in};
ghost use Rattle.venue.specs.Answers.{answer_of, fills_in};
ghost use Rattle.day_answers.specs.declared.answer.Code.TheVariants.{Cancelled as K, Waiting as S};
ghost use Rattle.dayfile.specs.Day.{bare, numbered, counted, if_any, fault_line, fill_line, refusal_line, code_of, trade_lines, answer_lines};
ghost use Rattle.dayfile.specs.Writing.{lines_bytes};

use book::answers::{Remainder, RetailAnswer};
use day_answers::answer::{AnswerLine, Code};
use day_answers::bytes::put_answer;
use day_words::fault::Fault;
use std::alloc::AllocError;
use terms::calls::Call;
use terms::market::QuoteCall;
use terms::orders::Fill;
use terms::refusals::Refusal;
use venue::answers::Answer;

// The letter alone.
fn bare(line: u32, code: Code) -> AnswerLine
    ensures { result ≡ bare line code }
{
    AnswerLine {
        line,
        code,
        number: None,
        price: None,
        shares: None,
    }
}

/// A number after the letter.
pub(crate) fn numbered(line: u32, code: Code, number: u32) -> AnswerLine
    ensures { result ≡ numbered line code number }
{
    AnswerLine {
        number: Some(number),
        ..bare(line, code)
    }
}

/// A number and shares after the letter.
pub(crate) fn counted(line: u32, code: Code, number: u32, shares: u32) -> AnswerLine
    ensures { result ≡ counted line code number shares }
{
    AnswerLine {
        shares: Some(shares),
        ..numbered(line, code, number)
    }
}

// What one fill is told of with.
fn fill_line(line: u32, fill: Fill) -> AnswerLine
    ensures { result ≡ fill_line line fill }
{
    AnswerLine {
        price: Some(fill.price),
        ..counted(line, Code::Fill, fill.number, fill.shares)
    }
}

/// Writes one line.
pub(crate) fn put_line(out: &mut Vec<u8>, answer: AnswerLine) -> Result<(), AllocError>
    ensures { OnOk result (vec_items out.new ≡ vec_items out.old ++ lines_bytes (answer ∷ [])) }
{
    put_answer(out, answer)
}

// Writes a line of a number and shares, where there are such shares.
fn put_if_any(
    out: &mut Vec<u8>,
    line: u32,
    code: Code,
    number: u32,
    shares: u32,
) -> Result<(), AllocError>
    ensures { OnOk result (vec_items out.new ≡ vec_items out.old ++ lines_bytes (if_any line code number shares)) }
{
    if shares == 0 {
        return Ok(());
    }
    put_line(out, counted(line, code, number, shares))
}

// Writes the fills of a Retail Order, in their sequence.
fn put_fills(out: &mut Vec<u8>, line: u32, fills: &[Fill]) -> Result<(), AllocError>
    ensures { OnOk result (vec_items out.new ≡ vec_items out.old ++ lines_bytes (map (fill_line line) fills.now)) }
{
    for fill in fills {
        put_line(out, fill_line(line, *fill))?;
    }
    Ok(())
}

// Writes what becomes of the shares of a Retail Order that are not filled.
fn put_remainder(
    out: &mut Vec<u8>,
    line: u32,
    number: u32,
    remainder: Remainder,
) -> Result<(), AllocError>
    ensures { OnOk result (vec_items out.new ≡ vec_items out.old ++ lines_bytes (if_any line K number (cancelled_in remainder) ++ if_any line S number (waiting_in remainder))) }
{
    match remainder {
        Remainder::Nothing => Ok(()),
        Remainder::Cancelled(shares) => put_if_any(out, line, Code::Cancelled, number, shares),
        Remainder::Waiting(shares) => put_if_any(out, line, Code::Waiting, number, shares),
    }
}

// Writes what a Retail Order with these fills is answered.
fn put_trade(
    out: &mut Vec<u8>,
    line: u32,
    trade: RetailAnswer,
    fills: &[Fill],
) -> Result<(), AllocError>
    ensures { OnOk result (vec_items out.new ≡ vec_items out.old ++ lines_bytes (trade_lines line (trade_of trade fills.now))) }
{
    put_fills(out, line, fills)?;
    put_line(out, counted(line, Code::Filled, trade.number, trade.filled))?;
    put_remainder(out, line, trade.number, trade.remainder)
}

// The letter of a call.
fn code_of(call: Call<QuoteCall>) -> Code
    ensures { result ≡ code_of call }
{
    match call {
        Call::Enter(_) => Code::Entered,
        Call::Cancel { .. } => Code::Left,
        Call::Retail { .. } => Code::Filled,
        Call::Draw { .. } => Code::Waiting,
        Call::Return { .. } => Code::Away,
        Call::Move(_) => Code::Moved,
        Call::Approve { .. } => Code::Approved,
        Call::Withdraw { .. } => Code::Withdrawn,
        Call::Quotes(QuoteCall::Tell(_)) => Code::Told,
        Call::Quotes(QuoteCall::Declare(_)) => Code::Declared,
        Call::Quotes(QuoteCall::Lift(_)) => Code::Lifted,
    }
}

/// Writes a refusal.
pub(crate) fn put_refusal(out: &mut Vec<u8>, line: u32, why: Refusal) -> Result<(), AllocError>
    ensures { OnOk result (vec_items out.new ≡ vec_items out.old ++ lines_bytes (refusal_line line why ∷ [])) }
{
    put_line(out, numbered(line, Code::Refused, why.number()))
}

/// Writes a fault.
pub(crate) fn put_fault(out: &mut Vec<u8>, line: u32, fault: Fault) -> Result<(), AllocError>
    ensures { OnOk result (vec_items out.new ≡ vec_items out.old ++ lines_bytes (fault_line line fault ∷ [])) }
{
    put_line(
        out,
        counted(line, Code::Refused, fault.kind.number(), fault.place),
    )
}

/// Writes what a call is answered, where the fills of a Retail Order stand at the front of the fill list.
pub(crate) fn put_told(
    out: &mut Vec<u8>,
    line: u32,
    call: Call<QuoteCall>,
    answer: Result<Answer, Refusal>,
    fill_list: &[Fill],
) -> Result<(), AllocError>
    requires { fills_in answer ≤ length fill_list.now }
    ensures { OnOk result (vec_items out.new ≡ vec_items out.old ++ lines_bytes (answer_lines line call (answer_of answer fill_list.now))) }
{
    match answer {
        Err(why) => put_refusal(out, line, why),
        Ok(Answer::Done) => put_line(out, bare(line, code_of(call))),
        Ok(Answer::Entered(entry)) => {
            put_line(
                out,
                counted(line, Code::Entered, entry.number, entry.shares),
            )
        }
        Ok(Answer::Cancelled(cancel)) => {
            put_line(out, counted(line, Code::Left, cancel.number, cancel.shares))
        }
        Ok(Answer::Traded(trade)) => put_trade(out, line, trade, &fill_list[..trade.fills]),
        Ok(Answer::Drawn { .. }) => Ok(()),
        Ok(Answer::Returned(back)) => {
            put_line(out, counted(line, Code::Away, back.number, back.away))?;
            put_if_any(out, line, Code::Cancelled, back.number, back.cancelled)
        }
    }
}
