//! What a line says.

use terms::calls::Call;
use terms::market::QuoteCall;

/// A Retail Order is lent so many places for its fills, one for each order that may rest.
pub const FILL_PLACES: usize = 256;

/// What a line without a fault says.
#[derive(Clone, Copy, PartialEq, Eq, Debug)]
pub enum Line {
    /// One call.
    Call(Call<QuoteCall>),
    /// The slip of a number is drawn and returned at once, with so many shares executed away.
    Route { number: u32, away: u32 },
    /// The liquidity identifier is asked for.
    Identify,
}
