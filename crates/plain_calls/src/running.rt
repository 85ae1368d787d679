//! The calls of a list, made one after another on an empty book.

ghost use Rattle.std.specs.Prelude.{◌≡◌, ◌+◌, ◌≤◌, ◌++◌, List, length, IfOk};
ghost use Rattle.laws.specs.Steps.{step};
ghost use Rattle.dayfile.specs.Day.{day_start};
ghost use Rattle.plain_calls.specs.declared.answers.PlainFill.{PlainFill as Given};
ghost use Rattle.plain_calls.specs.Plain.{over, plain, plain_fills};
ghost use Rattle.plain_calls.specs.Runs.{EndsAt, Made, RunAnswered, session_state};

use crate::answers::{PlainAnswer, PlainFill, plain_answer};
use crate::calls::PlainCall;
use crate::lists::put_fills;
use day_words::line::FILL_PLACES;
use dayfile::places::no_fills;
use stacks::{VenueQuotes, venue_quotes};
use std::alloc::{AllocError, Global};
use terms::calls::Call;
use terms::market::QuoteCall;
use terms::orders::Fill;
use venue::venue::Venue;

/// Why the answers to a list end where they do.
#[derive(Clone, Copy, PartialEq, Eq, Debug)]
pub enum End {
    /// Every call is answered.
    Done,
    /// Memory ran out before there was a book; no call was made.
    NoMemory,
    /// The next call has a letter that stands for nothing.
    NoSuchCall,
    /// There is no place for the next answer, or fewer than 256 for its fills.
    ShortList,
}

/// How many calls are answered, how many fills their answers have, and why no more are answered.
#[derive(Clone, Copy, PartialEq, Eq, Debug)]
pub struct Answered {
    pub end: End,
    pub calls: usize,
    pub fills: usize,
}

// A venue, its quotes, and the list that is lent for the fills of each Retail Order.
struct Session {
    venue: Venue,
    quotes: VenueQuotes,
    fills: [Fill; FILL_PLACES],
}

impl Session {
    // An empty book and no quotes told.
    fn new(heap: Global) -> Result<Self, AllocError>
        ensures { IfOk result (λ s. session_state s ≡ day_start) }
    {
        let venue = Venue::new(heap)?;
        Ok(Session {
            venue,
            quotes: venue_quotes(),
            fills: no_fills(),
        })
    }

    // Makes a call, and writes its fills after the first so many places of a list.
    fn answer(&mut self, call: Call<QuoteCall>, fills: &mut [PlainFill], at: usize) -> PlainAnswer
        requires { at + 256 ≤ length fills.old }
        ensures after { session_state self.new ≡ (step 32 (session_state self.old) call).1 }
        ensures answer { result ≡ plain (step 32 (session_state self.old) call).0 }
        ensures fills { (front list : List Given) → fills.old ≡ over front list → length front ≡ at → fills.new ≡ over (front ++ plain_fills (step 32 (session_state self.old) call).0) list }
        ensures count { result.fills ≡ length (plain_fills (step 32 (session_state self.old) call).0) }
        ensures few { result.fills ≤ 256 }
    {
        let answer = plain_answer(self.venue.call(&mut self.quotes, &mut self.fills, call));
        put_fills(fills, at, &self.fills[..answer.fills]);
        answer
    }

    // Makes the calls of a list, one after another, and writes what they are answered.
    fn answer_all(
        &mut self,
        calls: &[PlainCall],
        answers: &mut [PlainAnswer],
        fills: &mut [PlainFill],
    ) -> Answered
        ensures made { Made (session_state self.old) calls.now answers.old answers.new fills.old fills.new result.calls result.fills }
        ensures ends { EndsAt result.end calls.now answers.old fills.old result.calls result.fills }
    {
        let mut written = 0;
        for (made, plain) in calls.iter().enumerate() {
            let Some(call) = plain.meant() else {
                return Answered {
                    end: End::NoSuchCall,
                    calls: made,
                    fills: written,
                };
            };
            if answers.len() <= made || fills.len() - written < FILL_PLACES {
                return Answered {
                    end: End::ShortList,
                    calls: made,
                    fills: written,
                };
            }
            let answer = self.answer(call, fills, written);
            answers[made] = answer;
            written += answer.fills;
        }
        Answered {
            end: End::Done,
            calls: calls.len(),
            fills: written,
        }
    }

    // The end: every slip that is out is given back.
    fn close(self) {
        let Session {
            venue,
            quotes: _quotes,
            fills: _fills,
        } = self;
        let _ = venue.close();
    }
}

/// Makes the calls of a list on an empty book, before the opening, with no quote told, and writes what they are answered to
/// the front of the lists that are lent.
pub fn answer_calls(
    heap: Global,
    calls: &[PlainCall],
    answers: &mut [PlainAnswer],
    fills: &mut [PlainFill],
) -> Answered
    ensures { RunAnswered calls.now answers.old answers.new fills.old fills.new result }
{
    match Session::new(heap) {
        Ok(mut session) => {
            let answered = session.answer_all(calls, answers, fills);
            session.close();
            answered
        }
        Err(_) => Answered {
            end: End::NoMemory,
            calls: 0,
            fills: 0,
        },
    }
}
