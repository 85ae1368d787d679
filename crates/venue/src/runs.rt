//! Whole runs: an empty book and any list of calls.

ghost use Rattle.std.specs.Prelude.{◌≡◌, ◌<◌, ◌≤◌, [], ◌∷◌, ◌++◌, map, length, take, OnOk, OnErr};
ghost use Rattle.book.specs.BookState.{state_of};
ghost use Rattle.book.specs.Means.{state};
ghost use Rattle.venue.specs.Answers.{call_of, fills_in, note_of};
ghost use Rattle.venue.specs.Closing.{ComeBack};
ghost use Rattle.venue.specs.Runs.{HasRoom, Ran, RunKeeps};

use crate::answers::Answer;
use crate::venue::Venue;
use book::ledger::Book;
use queues::side::MAX_RESTING;
use quotes::source::QuoteSource;
use std::alloc::{AllocError, Global};
use terms::calls::Call;
use terms::orders::Fill;
use terms::refusals::Refusal;

/// The most fills that one call has: one for each resting order of a side.
const MOST_FILLS: usize = MAX_RESTING;

/// What a run leaves: the venue, which is the book with the slips that are still out; the answers; the fills of all answers
/// one after the other; and how it ended: every call was answered, or there was no memory for the answer to the next call,
/// which was not made. It cannot be let go while slips may be out: it is closed.
// Form: one list for the fills of all answers, since a list for each would be allocated at every call.
pub struct Outcome {
    pub venue: Venue,
    pub answers: Vec<Result<Answer, Refusal>>,
    pub fills: Vec<Fill>,
    pub end: Result<(), AllocError>,
}

/// What a run leaves once no slip is out.
#[derive(Drop)]
pub struct ClosedRun {
    pub book: Book,
    pub answers: Vec<Result<Answer, Refusal>>,
    pub fills: Vec<Fill>,
    pub end: Result<(), AllocError>,
}

impl Outcome {
    /// Closes the run: every slip that is out comes back with nothing executed away; the answers, the fills and the end stay.
    pub fn close(self) -> ClosedRun
        ensures book { ComeBack (state self.venue.book) (map note_of self.venue.held.items) (state result.book) }
        ensures answers { result.answers ≡ self.answers }
        ensures fills { result.fills ≡ self.fills }
        ensures end { result.end ≡ self.end }
    {
        let Outcome {
            venue,
            answers,
            fills,
            end,
        } = self;
        ClosedRun {
            book: venue.close(),
            answers,
            fills,
            end,
        }
    }
}

// The record of a run: its answers so far, and the fills of all of them one after the other.
#[derive(Drop)]
struct Record {
    answers: Vec<Result<Answer, Refusal>>,
    fills: Vec<Fill>,
}

impl Record {
    // The record of a run that has answered nothing.
    fn new(heap: Global) -> Self
        ensures answers { result.answers.items ≡ [] }
        ensures fills { result.fills.items ≡ [] }
    {
        Record {
            answers: Vec::new(heap),
            fills: Vec::new(heap),
        }
    }

    // Makes room for one more answer, whatever it is.
    fn make_room(&mut self) -> Result<(), AllocError>
        ensures answers { self.new.answers.items ≡ self.old.answers.items }
        ensures fills { self.new.fills.items ≡ self.old.fills.items }
        ensures room { OnOk result (HasRoom self.new) }
    {
        self.answers.reserve(1)?;
        self.fills.reserve(MOST_FILLS)
    }

    // Notes an answer, and the fills that stand at the front of the fill list for it.
    fn note(&mut self, answer: Result<Answer, Refusal>, out: &[Fill])
        requires room { HasRoom self.old }
        requires within { fills_in answer ≤ length out.now }
        requires few { fills_in answer ≤ 256 }
        ensures answers { self.new.answers.items ≡ self.old.answers.items ++ answer ∷ [] }
        ensures fills { self.new.fills.items ≡ self.old.fills.items ++ take (fills_in answer) out.now }
    {
        if let Ok(Answer::Traded(trade)) = answer {
            self.fills.extend_from_slice(&out[..trade.fills]).unwrap();
        }
        self.answers.push_reserved(answer);
    }

    // Makes every call of a list, on a venue with no slips out, and notes in a new record what each answers, in order.
    // If memory runs out, it ends between two calls.
    fn follow<S: QuoteSource>(
        &mut self,
        venue: &mut Venue,
        source: &mut S,
        out: &mut [Fill],
        calls: &[Call<S::Call>],
    ) -> Result<(), AllocError>
        requires answers { self.old.answers.items ≡ [] }
        requires fills { self.old.fills.items ≡ [] }
        requires slips { venue.old.held.items ≡ [] }
        ensures ran { Ran S.centres (state_of (state venue.old.book) (S.means source.old) out.old) (map (call_of S.denotes) calls.now) (length self.new.answers.items) self.new.answers.items self.new.fills.items (state_of (state venue.new.book) (S.means source.new) out.new) (map note_of venue.new.held.items) }
        ensures complete { OnOk result (length self.new.answers.items ≡ length calls.now) }
        ensures cut_short { OnErr result (length self.new.answers.items < length calls.now) }
    {
        for call in calls {
            self.make_room()?;
            let answer = venue.call(source, out, *call);
            self.note(answer, out);
        }
        Ok(())
    }
}

/// Makes every call of a list on an empty book, over any source or stack of layers, and answers them in order. If memory
/// runs out, it ends between two calls.
pub fn run<S: QuoteSource>(
    heap: Global,
    source: &mut S,
    out: &mut [Fill],
    calls: &[Call<S::Call>],
) -> Result<Outcome, AllocError>
    ensures { RunKeeps S.centres (S.means source.old) out.old (map (call_of S.denotes) calls.now) (S.means source.new) out.new result }
{
    let mut venue = Venue::new(heap)?;
    let mut said = Record::new(heap);
    let end = said.follow(&mut venue, source, out, calls);
    let Record { answers, fills } = said;
    Ok(Outcome {
        venue,
        answers,
        fills,
        end,
    })
}
