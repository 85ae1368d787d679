//! What holds of every day file.

ghost use Rattle.std.specs.Prelude.{◌≡◌};
ghost use Rattle.dayfile.specs.Day.{day_bytes};
ghost use Rattle.dayfile.specs.DayLaws.{DayHolds};
ghost use Rattle.dayfile.specs.WorkedFile.{worked_file, worked_answers};

/// Each line calls and is answered what it says, in the state to which the calls of the lines before it lead, and no slip
/// is out when it comes; a routed slip and a file are answered as they are described; and the whole law of the book holds
/// of the calls of a file.
// Form: a number as the body, the project's mark of a function that only carries a statement.
#[tactic(auto, using(crate::proofs::Whole::day_holds))]
pub fn day_holds() -> u32
    ensures { DayHolds }
{
    0
}

/// A small day file is answered byte for byte as it is written down.
pub fn worked_file_holds() -> u32
    ensures { day_bytes worked_file ≡ worked_answers }
{
    0
}
