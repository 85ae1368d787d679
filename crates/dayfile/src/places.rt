//! The places that are lent for the fills of a Retail Order.

ghost use Rattle.std.specs.Prelude.{◌≡◌};
ghost use Rattle.dayfile.specs.Day.{no_fills};

use day_words::line::FILL_PLACES;
use terms::orders::Fill;

// What a place holds before any fill stands there.
const NO_FILL: Fill = Fill {
    number: 0,
    price: 0,
    shares: 0,
};

/// As many places as are lent to each Retail Order, before the first.
pub fn no_fills() -> [Fill; FILL_PLACES]
    ensures { result ≡ no_fills }
{
    [NO_FILL; FILL_PLACES]
}
