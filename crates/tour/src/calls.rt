//! Events, as calls of the venue.

ghost use Rattle.std.specs.Prelude.{◌≡◌, ◌≤◌, length};
ghost use Rattle.laws.specs.Steps.{step};
ghost use Rattle.book.specs.BookState.{state_of};
ghost use Rattle.book.specs.Means.{state};
ghost use Rattle.desk.specs.Events.{event_call};
ghost use Rattle.venue.specs.Answers.{answer_of, call_of, fills_in};

use desk::events::Event;
use queues::side::MAX_RESTING;
use quotes::source::{Excepting, QuoteSource};
use terms::calls::Call;
use terms::orders::Fill;
use terms::refusals::Refusal;
use venue::answers::Answer;
use venue::venue::Venue;

/// A Retail Order is lent so many places for fills, one for each order that may rest.
pub const FILL_PLACES: usize = MAX_RESTING;

/// What a place holds before any fill stands there.
pub const NO_FILL: Fill = Fill {
    number: 0,
    price: 0,
    shares: 0,
};

/// The call that an event makes.
pub(crate) fn call_of<S: Excepting>(event: Event) -> Call<S::Call>
    ensures { call_of S.QuoteSource.denotes result ≡ event_call event 256 }
{
    match event {
        Event::Quote(update) => Call::Quotes(S::tell_call(update)),
        Event::Exception(centre) => Call::Quotes(S::declare_call(centre)),
        Event::Return(centre) => Call::Quotes(S::lift_call(centre)),
        Event::Enter(order) => Call::Enter(order),
        Event::Cancel { member, number } => Call::Cancel { member, number },
        Event::Phase(change) => Call::Move(change),
        Event::Approve(member) => Call::Approve { member },
        Event::Retail(order) => Call::Retail {
            order,
            places: FILL_PLACES,
        },
        Event::Draw(number) => Call::Draw { number },
        Event::GiveBack {
            number,
            shares,
            away,
        } => Call::Return {
            number,
            shares,
            away,
        },
    }
}

/// Makes the call of an event: the answer, and the book and the quotes after it, are those of its step.
pub(crate) fn follow_event<S: Excepting>(
    venue: &mut Venue,
    source: &mut S,
    out: &mut [Fill],
    event: Event,
) -> Result<Answer, Refusal>
    ensures step { step S.QuoteSource.centres (state_of (state venue.old.book) (S.QuoteSource.means source.old) out.old) (event_call event 256) ≡ (answer_of result out.new, state_of (state venue.new.book) (S.QuoteSource.means source.new) out.new) }
    ensures within { fills_in result ≤ length out.new }
{
    venue.call(source, out, call_of::<S>(event))
}
