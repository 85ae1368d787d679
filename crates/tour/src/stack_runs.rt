//! A run of a list of events, over any stack of quotes that takes exceptions.

ghost use Rattle.std.specs.Prelude.{◌≡◌, map, IfOk};
ghost use Rattle.desk.specs.Events.{event_call};
ghost use Rattle.venue.specs.Answers.{call_of};
ghost use Rattle.venue.specs.Runs.{RunKeeps};

use crate::calls::call_of;
use desk::events::Event;
use quotes::source::Excepting;
use std::alloc::{AllocError, Global};
use terms::calls::Call;
use terms::orders::Fill;
use venue::runs::{Outcome, run};

// The calls that events make, over a kind of source.
fn calls_of<S: Excepting>(heap: Global, events: &[Event]) -> Result<Vec<Call<S::Call>>, AllocError>
    ensures { IfOk result (λ calls. map (call_of S.QuoteSource.denotes) calls.items ≡ map (λ event. event_call event 256) events.now) }
{
    let mut calls = Vec::new(heap);
    for event in events {
        calls.push(call_of::<S>(*event))?;
    }
    Ok(calls)
}

/// Makes the calls of events on an empty book, in order.
pub(crate) fn run_events<S: Excepting>(
    heap: Global,
    source: &mut S,
    out: &mut [Fill],
    events: &[Event],
) -> Result<Outcome, AllocError>
    ensures { RunKeeps S.QuoteSource.centres (S.QuoteSource.means source.old) out.old (map (λ event. event_call event 256) events.now) (S.QuoteSource.means source.new) out.new result }
{
    let calls = calls_of::<S>(heap, events)?;
    run(heap, source, out, &calls)
}
