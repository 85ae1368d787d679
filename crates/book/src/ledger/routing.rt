//! Routed shares: slips are drawn, and come back.

ghost use Rattle.std.specs.Prelude.{◌≡◌};
ghost use Rattle.terms.specs.declared.calls.Call.TheVariants.{Draw, Return};
ghost use Rattle.slips.specs.Slips.{HandedBack, draw_answer, return_answer, shares_waiting};
ghost use Rattle.book.specs.BookState.{Steps};
ghost use Rattle.book.specs.Means.{state};

use super::Book;
use slips::slip::{DrawnSlip, RefusedReturn, ReturnAnswer};
use terms::refusals::Refusal;

impl Book {
    /// The shares on the waiting slip of a number.
    pub fn waiting_shares(&self, number: u32) -> Option<u32>
        ensures { result ≡ shares_waiting number (state self.now).slips }
    {
        self.slips.waiting_shares(number)
    }

    /// The waiting slip of a number is handed out.
    pub fn draw(&mut self, number: u32) -> Result<DrawnSlip, Refusal>
        ensures { Steps (state self.old) (Draw number) (draw_answer result) (state self.new) }
    {
        self.slips.draw(number)
    }

    /// A slip comes back with the shares executed away; the rest of it is cancelled. A refused slip is handed back.
    pub fn give_back(&mut self, slip: DrawnSlip, away: u32) -> Result<ReturnAnswer, RefusedReturn>
        ensures step { Steps (state self.old) (Return slip.number slip.shares away) (return_answer result) (state self.new) }
        ensures back { HandedBack slip result }
    {
        self.slips.give_back(slip, away)
    }
}
