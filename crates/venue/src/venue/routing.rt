//! Slips go out and come back.

ghost use Rattle.std.specs.Prelude.{map};
ghost use Rattle.terms.specs.declared.calls.Call.TheVariants.{Draw as Drawing, Return as Returning};
ghost use Rattle.laws.specs.Routed.{out_after};
ghost use Rattle.rules.specs.Sorted.{Perm};
ghost use Rattle.book.specs.BookState.{Steps};
ghost use Rattle.book.specs.Means.{state};
ghost use Rattle.venue.specs.Answers.{Says, note_of, plain_answer};
ghost use Rattle.venue.specs.Holding.{FoundAt};

use super::Venue;
use crate::answers::Answer;
use slips::slip::{DrawnSlip, RefusedReturn};
use terms::refusals::Refusal;

// Where a slip of a number and so many shares stands among those that are out.
// Form: number and shares come apart, as `Call::Return` names a slip by them; a `DrawnSlip` is what is looked for.
fn find_slip(held: &[DrawnSlip], number: u32, shares: u32) -> Option<usize>
    ensures { FoundAt number shares held.now result }
{
    held.iter()
        .position(|slip| slip.number() == number && slip.shares() == shares)
}

impl Venue {
    /// The waiting slip of a number goes out.
    pub(super) fn draw(&mut self, number: u32) -> Result<Answer, Refusal>
        ensures step { Steps (state self.old.book) (Drawing number) (plain_answer result) (state self.new.book) }
        ensures plain { Says result (plain_answer result) }
        ensures slips { Perm (out_after (map note_of self.old.held.items) (plain_answer result)) (map note_of self.new.held.items) }
    {
        let slip = self.book.draw(number)?;
        let answer = Answer::Drawn {
            number: slip.number(),
            shares: slip.shares(),
        };
        self.held.push_reserved(slip);
        Ok(answer)
    }

    /// A slip that is out comes back with the shares executed away; if it is refused, it stays out.
    pub(super) fn take_back(
        &mut self,
        number: u32,
        shares: u32,
        away: u32,
    ) -> Result<Answer, Refusal>
        ensures step { Steps (state self.old.book) (Returning number shares away) (plain_answer result) (state self.new.book) }
        ensures plain { Says result (plain_answer result) }
        ensures slips { Perm (out_after (map note_of self.old.held.items) (plain_answer result)) (map note_of self.new.held.items) }
    {
        let i = find_slip(self.held.as_slice(), number, shares).ok_or(Refusal::NoDrawnSlip)?;
        let slip = self.held.remove(i);
        match self.book.give_back(slip, away) {
            Ok(answer) => Ok(Answer::Returned(answer)),
            Err(RefusedReturn { why, slip }) => {
                self.held.push_reserved(slip);
                Err(why)
            }
        }
    }
}
