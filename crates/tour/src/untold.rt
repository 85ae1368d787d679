//! The answers of a run, one after another, each with its fills.

ghost use Rattle.std.specs.Prelude.{◌≡◌, ◌↔◌, [], ◌∷◌, ◌++◌, length, IsNone, IfSome};
ghost use Rattle.venue.specs.Answers.{all_fills, fills_in};

use terms::orders::Fill;
use terms::refusals::Refusal;
use venue::answers::Answer;
use venue::runs::ClosedRun;

// How many fills an answer has.
fn fill_count(answer: Result<Answer, Refusal>) -> usize
    ensures { result ≡ fills_in answer }
{
    match answer {
        Ok(Answer::Traded(trade)) => trade.fills,
        _ => 0,
    }
}

/// The answers of a run that are still to be told, and the fills of all of them.
#[derive(Drop)]
pub(crate) struct Untold<'a> {
    answers: &'a [Result<Answer, Refusal>],
    fills: &'a [Fill],
    ghost fits: { all_fills answers.now ≡ length fills.now },
}

impl<'a> Untold<'a> {
    /// Nothing of a run is told.
    pub(crate) fn new(run: &'a ClosedRun) -> Self
        requires { all_fills run.now.answers.items ≡ length run.now.fills.items }
        ensures answers { result.answers.now ≡ run.now.answers.items }
        ensures fills { result.fills.now ≡ run.now.fills.items }
    {
        Untold {
            answers: run.answers.as_slice(),
            fills: run.fills.as_slice(),
        }
    }

    /// The next answer, with its fills, or none where all are told.
    pub(crate) fn next(&mut self) -> Option<(Result<Answer, Refusal>, &'a [Fill])>
        ensures none { IsNone result ↔ (self.old.answers.now ≡ []) }
        ensures answer { IfSome result (λ told. self.old.answers.now ≡ told.0 ∷ self.new.answers.now) }
        ensures fills { IfSome result (λ told. self.old.fills.now ≡ told.1.now ++ self.new.fills.now) }
        ensures own { IfSome result (λ told. fills_in told.0 ≡ length told.1.now) }
    {
        let (answer, answers) = self.answers.split_first()?;
        let (own, fills) = self.fills.split_at(fill_count(*answer));
        self.answers = answers;
        self.fills = fills;
        Some((*answer, own))
    }
}
