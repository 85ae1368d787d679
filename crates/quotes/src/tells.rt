//! What a tell leaves at its centre, or why it is refused.

ghost use Rattle.std.specs.Prelude.{◌≡◌};
ghost use Rattle.quotes.specs.Told.{told_answer};

use terms::limits::{is_valid_price, is_valid_quote_size};
use terms::market::{Quote, QuoteUpdate};
use terms::refusals::Refusal;

/// The quote that a source of so many centres holds after a tell, which is none after a size of 0.
pub fn told_quote(centres: usize, update: QuoteUpdate) -> Result<Option<Quote>, Refusal>
    ensures { result ≡ told_answer centres update }
{
    let QuoteUpdate {
        centre,
        price,
        size,
        ..
    } = update;
    if centre as usize >= centres || !is_valid_quote_size(size) {
        return Err(Refusal::OutOfRange);
    }
    if size == 0 {
        return Ok(None);
    }
    if !is_valid_price(price) {
        return Err(Refusal::OutOfRange);
    }
    Ok(Some(Quote { price, size }))
}
