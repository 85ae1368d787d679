//! What holds of the written answers, whatever they are.

ghost use Rattle.day_answers.specs.WrittenLaws.{AnswersHold};

/// Different answers are never written alike, nor different lists of answers, and each answer is one line of five
/// fields.
// Form: a number as the body, the project's mark of a function that only carries a statement.
#[tactic(auto, using(crate::proofs::Alike::answers_hold))]
pub fn answers_hold() -> u32
    ensures { AnswersHold }
{
    0
}
