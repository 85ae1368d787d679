//! What holds of the lines, the fields and the numbers of a day file, whatever its bytes.

ghost use Rattle.day_lines.specs.LineLaws.{DayLinesHold};

/// What is written as lines, as fields or as a number is read as it was written, and no byte is lost.
// Form: a number as the body, the project's mark of a function that only carries a statement.
#[tactic(auto, using(crate::proofs::ReadBack::day_lines_hold))]
pub fn lines_hold() -> u32
    ensures { DayLinesHold }
{
    0
}
