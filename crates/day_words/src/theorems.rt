//! What holds of every line of a day file.

ghost use Rattle.day_words.specs.SpellingLaws.{DayWordsHold};

/// A line has the fault of its first wrong field, and is a call if it has none; every call that can be spelled is read
/// as it was spelled, and what is read is spelled in its line.
// Form: a number as the body, the project's mark of a function that only carries a statement.
#[tactic(auto, using(crate::proofs::Spells::day_words_hold))]
pub fn spelling_holds() -> u32
    ensures { DayWordsHold }
{
    0
}
