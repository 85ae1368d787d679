//! The stack of layers that the venue runs on.
#![tactic(auto)]

ghost use Rattle.std.specs.Prelude.{◌≡◌};
ghost use Rattle.stacks.specs.Venue.{venue_means, opening_quotes};

use exception_layer::ExceptionLayer;
use lot_layer::LotLayer;
use scan_table::ScanTable;

#[cfg(test)]
mod tests;

/// The shares of a round lot: a smaller quote is not protected.
pub const ROUND_LOT: u32 = 100;

/// The scan table, an exception layer on it, and a lot layer on top.
pub type VenueQuotes = LotLayer<ExceptionLayer<ScanTable>>;

/// The venue's quotes at the start of the day: nothing told, no exception, and a lot of 100.
pub fn venue_quotes() -> VenueQuotes
    ensures { venue_means result.lot.shares result.below.own.marks result.below.below.rows ≡ opening_quotes }
{
    LotLayer::new(ExceptionLayer::new(ScanTable::new()), ROUND_LOT)
}
