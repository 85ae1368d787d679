//! The protected quotes after each of some quote calls.

ghost use Rattle.std.specs.Prelude.{◌≡◌};
ghost use Rattle.plain_calls.specs.Protecting.{Protected};

use crate::answers::{PlainBest, plain_best};
use crate::calls::PlainCall;
use quotes::source::{QuoteSource, protected_quotes};
use stacks::venue_quotes;
use terms::calls::Call;

/// Makes quote calls where no quote is told, and writes to the front of a list the protected quotes as they stand after
/// each; a refused call leaves them. It ends before a call of another kind, and where a list ends. The answer is how many
/// are written.
pub fn protect_calls(calls: &[PlainCall], best: &mut [PlainBest]) -> usize
    ensures { Protected calls.now best.old best.new result }
{
    let mut quotes = venue_quotes();
    for (written, plain) in calls.iter().enumerate() {
        let Some(Call::Quotes(call)) = plain.meant() else {
            return written;
        };
        if best.len() <= written {
            return written;
        }
        let _refused = quotes.apply(call);
        best[written] = plain_best(protected_quotes(&quotes));
    }
    calls.len()
}
