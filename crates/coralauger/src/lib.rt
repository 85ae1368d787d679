//! The functions that a program in C calls: calls or a day file in, their answers out.
//!
//! `link/coralauger.h` declares them, and docs/LINKING.md says what their caller owes. A `Global` takes no bytes, so the
//! caller passes nothing for it.
#![tactic(auto)]

ghost use Rattle.std.specs.Prelude.{◌≡◌};
ghost use Rattle.plain_calls.specs.Protecting.{Protected};
ghost use Rattle.plain_calls.specs.Runs.{RunAnswered};
ghost use Rattle.coralauger.specs.Ends.{end_number, RunWritten, DayWritten};

use dayfile::answering::answer_day;
use plain_calls::answers::{PlainAnswer, PlainBest, PlainFill};
use plain_calls::calls::PlainCall;
use plain_calls::protecting::protect_calls;
use plain_calls::running::{Answered, End, answer_calls};
use std::alloc::Global;

#[cfg(test)]
mod tests;

/// How a run ended, by number, how many calls are answered, and how many fills their answers have.
#[repr(C)]
#[derive(Clone, Copy, PartialEq, Eq, Debug)]
pub struct PlainRun {
    pub end: u32,
    pub calls: usize,
    pub fills: usize,
}

/// How the answers to a day file ended, by number, and how many bytes they have.
#[repr(C)]
#[derive(Clone, Copy, PartialEq, Eq, Debug)]
pub struct PlainDay {
    pub end: u32,
    pub bytes: usize,
}

// The number that stands for an end.
fn end_number(end: End) -> u32
    ensures { result ≡ end_number end }
{
    match end {
        End::Done => 0,
        End::NoMemory => 1,
        End::NoSuchCall => 2,
        End::ShortList => 3,
    }
}

/// Makes the calls of a list on an empty book, before the opening, with no quote told, and writes what they are answered to
/// the front of the lists that are lent.
#[unsafe(no_mangle)]
pub extern "C" fn coralauger_run(
    heap: Global,
    calls: &[PlainCall],
    answers: &mut [PlainAnswer],
    fills: &mut [PlainFill],
) -> PlainRun
    ensures { RunWritten calls.now answers.old answers.new fills.old fills.new result }
{
    let Answered { end, calls, fills } = answer_calls(heap, calls, answers, fills);
    PlainRun {
        end: end_number(end),
        calls,
        fills,
    }
}

/// Makes quote calls where no quote is told, and writes to the front of a list the protected quotes as they stand after each.
#[unsafe(no_mangle)]
pub extern "C" fn coralauger_protect(calls: &[PlainCall], best: &mut [PlainBest]) -> usize
    ensures { Protected calls.now best.old best.new result }
{
    protect_calls(calls, best)
}

/// Answers a day file: writes the bytes of the answers to the front of a list, if there is room for all.
#[unsafe(no_mangle)]
pub extern "C" fn coralauger_answer_day(heap: Global, day: &[u8], answers: &mut [u8]) -> PlainDay
    ensures { DayWritten day.now answers.old answers.new result }
{
    let Ok(text) = answer_day(heap, day) else {
        return PlainDay {
            end: end_number(End::NoMemory),
            bytes: 0,
        };
    };
    let bytes = text.len();
    if answers.len() < bytes {
        return PlainDay {
            end: end_number(End::ShortList),
            bytes,
        };
    }
    answers[..bytes].copy_from_slice(&text);
    PlainDay {
        end: end_number(End::Done),
        bytes,
    }
}
