//! A use of a slip. `scripts/slip-misuse` puts two misuses in the place of its function, and shows that each is refused.

use book::ledger::Book;
use slips::slip::{RefusedReturn, ReturnAnswer};
use terms::refusals::Refusal;

// What a return is answered; a refused slip comes back.
pub(super) type Returned = Result<ReturnAnswer, RefusedReturn>;

// Draws the waiting slip of a number and gives it back once, with nothing executed away.
pub(super) fn give_back_once(book: &mut Book, number: u32) -> Result<Returned, Refusal> {
    let slip = book.draw(number)?;
    Ok(book.give_back(slip, 0))
}
