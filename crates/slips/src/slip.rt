//! A slip that is out.

ghost use Rattle.std.specs.Prelude.{◌≡◌, true};

use terms::orders::Slip;
use terms::refusals::Refusal;

/// Shares that a book has handed out to be executed away, under the number of their Retail Order. It is a value that
/// can neither be copied nor let go: only giving it back spends it.
pub struct DrawnSlip {
    pub(crate) number: u32,
    pub(crate) shares: u32,
}

impl DrawnSlip {
    /// The number of the Retail Order.
    pub fn number(&self) -> u32
        ensures { result ≡ self.now.number }
    {
        self.number
    }

    /// How many shares are on the slip.
    pub fn shares(&self) -> u32
        ensures { result ≡ self.now.shares }
    {
        self.shares
    }

    // What its book has of this slip.
    // Form: a method and no `From<&DrawnSlip>`, which would be public: only the book's own list reads a slip so.
    pub(crate) fn note(&self) -> Slip
        ensures { result ≡ record { number = self.now.number; shares = self.now.shares; drawn = true } }
    {
        Slip {
            number: self.number,
            shares: self.shares,
            drawn: true,
        }
    }
}

/// What a slip that was given back came to: the shares executed away, and the rest, which is cancelled.
#[derive(Clone, Copy, PartialEq, Eq, Debug)]
pub struct ReturnAnswer {
    pub number: u32,
    pub away: u32,
    pub cancelled: u32,
}

/// Why a return was refused, and the slip that was not taken. It cannot be let go either, since the slip is in it.
pub struct RefusedReturn {
    pub why: Refusal,
    pub slip: DrawnSlip,
}
