//! The end of a day: no slip stays out.

ghost use Rattle.std.specs.Prelude.{map};
ghost use Rattle.laws.specs.Routed.{InStep};
ghost use Rattle.book.specs.Means.{state};
ghost use Rattle.venue.specs.Answers.{note_of};
ghost use Rattle.venue.specs.Closing.{ComeBack};

use book::ledger::Book;
use slips::slip::DrawnSlip;

/// Takes back every slip that is out, with nothing executed away. A book never refuses a slip that it handed out.
pub(crate) fn take_all_back(book: &mut Book, mut slips: Vec<DrawnSlip>)
    requires { InStep (state book.old) (map note_of slips.items) }
    ensures { ComeBack (state book.old) (map note_of slips.items) (state book.new) }
{
    while let Some(slip) = slips.pop() {
        book.give_back(slip, 0).unwrap();
    }
    slips.destroy_empty();
}
