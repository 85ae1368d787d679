//! What holds of every plain call and every plain answer.

ghost use Rattle.plain_calls.specs.MeantLaws.{MeaningsHold};
ghost use Rattle.plain_calls.specs.PlainLaws.{TellingsHold};

/// A plain call means a call exactly if it says it, letter by letter and number by number, and nothing exactly if it says
/// none.
// Form: a number as the body, the project's mark of a function that only carries a statement.
#[tactic(auto, using(crate::proofs::Meanings::meanings_hold))]
pub fn meanings_hold() -> u32
    ensures { MeaningsHold }
{
    0
}

/// Every answer is told by one plain answer, and by no other, field by field.
// Form: as above.
#[tactic(auto, using(crate::proofs::Tellings::tellings_hold))]
pub fn tellings_hold() -> u32
    ensures { TellingsHold }
{
    0
}
