//! What became of each order's shares, by the calls and their answers alone.

ghost use Rattle.std.specs.Prelude.{◌≡◌, ◌≤◌, length, take, fold};
ghost use Rattle.laws.specs.Book.{slip_shares};
ghost use Rattle.book.specs.Means.{cancelled_in, state};
ghost use Rattle.venue.specs.Answers.{fills_in};
ghost use Rattle.tour.specs.Tallies.{both, added, fill_added, sent, counted, adds_up, shares_resting};

use book::answers::Remainder;
use book::ledger::Book;
use desk::events::Event;
use terms::orders::Fill;
use terms::refusals::Refusal;
use venue::answers::Answer;

/// How many shares of an order were entered, filled, cancelled and executed away.
#[derive(Clone, Copy, Default)]
pub struct Tally {
    pub entered: u32,
    pub filled: u32,
    pub cancelled: u32,
    pub away: u32,
}

impl Tally {
    // The shares of both, each sum at most the largest number there is.
    fn saturating_add(self, more: Tally) -> Tally
        ensures { result ≡ both self more }
    {
        Tally {
            entered: self.entered.saturating_add(more.entered),
            filled: self.filled.saturating_add(more.filled),
            cancelled: self.cancelled.saturating_add(more.cancelled),
            away: self.away.saturating_add(more.away),
        }
    }

    /// Whether every share that was entered is accounted for, with those that rest and those that wait on a slip.
    pub(crate) fn adds_up(self, resting: u32, waiting: u32) -> bool
        ensures { result ≡ adds_up self resting waiting }
    {
        let gone = u64::from(self.filled) + u64::from(self.cancelled) + u64::from(self.away);
        u64::from(self.entered) == gone + u64::from(resting) + u64::from(waiting)
    }
}

/// A row of the table of every order's shares: what became of them, how many rest and how many wait on a slip, and
/// whether that is all that were entered.
pub(crate) struct Row {
    pub(crate) tally: Tally,
    pub(crate) resting: u32,
    pub(crate) waiting: u32,
    pub(crate) adds_up: bool,
}

/// The row of the order of a number, whose tally is told.
pub(crate) fn row_of(book: &Book, number: u32, tally: Tally) -> Row
    ensures tally { result.tally ≡ tally }
    ensures resting { result.resting ≡ shares_resting number (state book.now).resting }
    ensures waiting { result.waiting ≡ slip_shares (state book.now) number }
    ensures sum { result.adds_up ≡ adds_up tally result.resting result.waiting }
{
    let resting = resting_shares(book, number);
    let waiting = book.waiting_shares(number).unwrap_or(0);
    Row {
        tally,
        resting,
        waiting,
        adds_up: tally.adds_up(resting, waiting),
    }
}

// How many shares of the order of a number rest; 0 if no order of that number rests.
fn resting_shares(book: &Book, number: u32) -> u32
    ensures { result ≡ shares_resting number (state book.now).resting }
{
    book.order(number).map_or(0, |order| order.shares)
}

// Adds shares to the tally of a number; a number that has no tally is left out.
fn add(tallies: &mut [Tally], number: u32, more: Tally)
    ensures { tallies.new ≡ added tallies.old number more }
{
    // Form: a test and an index, since `get_mut` of a slice does not say what the slice holds after the write.
    let i = number as usize;
    if i < tallies.len() {
        tallies[i] = tallies[i].saturating_add(more);
    }
}

// Adds each fill to the tally of the resting order that it names.
fn add_fills(tallies: &mut [Tally], fills: &[Fill])
    ensures { tallies.new ≡ fold fill_added tallies.old fills.now }
{
    for fill in fills {
        let more = Tally {
            filled: fill.shares,
            ..Tally::default()
        };
        add(tallies, fill.number, more);
    }
}

// The shares that a Retail Order is sent with; any other event sends none.
fn sent_shares(event: Event) -> u32
    ensures { result ≡ sent event }
{
    match event {
        Event::Retail(order) => order.shares,
        _ => 0,
    }
}

// The shares of a remainder that are cancelled at once.
fn cancelled_shares(remainder: Remainder) -> u32
    ensures { result ≡ cancelled_in remainder }
{
    match remainder {
        Remainder::Cancelled(shares) => shares,
        Remainder::Nothing | Remainder::Waiting(_) => 0,
    }
}

// Shares that leave with no fill here: so many cancelled, so many executed away.
fn left(cancelled: u32, away: u32) -> Tally
    ensures { result ≡ record { entered = 0; filled = 0; cancelled = cancelled; away = away } }
{
    Tally {
        cancelled,
        away,
        ..Tally::default()
    }
}

/// Counts what an event, its answer and its fills say.
pub(crate) fn count(
    tallies: &mut [Tally],
    event: Event,
    answer: Result<Answer, Refusal>,
    fills: &[Fill],
)
    requires { fills_in answer ≤ length fills.now }
    ensures { tallies.new ≡ counted tallies.old event answer (take (fills_in answer) fills.now) }
{
    let Ok(taken) = answer else {
        return;
    };
    let (number, more) = match taken {
        Answer::Entered(entry) => (
            entry.number,
            Tally {
                entered: entry.shares,
                ..Tally::default()
            },
        ),
        Answer::Cancelled(cancel) => (cancel.number, left(cancel.shares, 0)),
        Answer::Returned(back) => (back.number, left(back.cancelled, back.away)),
        Answer::Traded(trade) => {
            add_fills(tallies, &fills[..trade.fills]);
            (
                trade.number,
                Tally {
                    entered: sent_shares(event),
                    filled: trade.filled,
                    cancelled: cancelled_shares(trade.remainder),
                    ..Tally::default()
                },
            )
        }
        Answer::Done | Answer::Drawn { .. } => return,
    };
    add(tallies, number, more);
}
