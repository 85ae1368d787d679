//! What market centres quote, and the calls that change what a source of quotes holds.

/// A side of the market. Of an order, `Buy` or `Sell`; of a quote, `Buy` is the bid and `Sell` the offer.
#[derive(Clone, Copy, PartialEq, Eq, Debug)]
pub enum Side {
    Buy,
    Sell,
}

/// What a market centre quotes on one side.
#[derive(Clone, Copy, PartialEq, Eq, Debug)]
pub struct Quote {
    pub price: u32,
    pub size: u32,
}

/// What a market centre is told to quote on one side from now on; a size of 0 takes its quote away.
#[derive(Clone, Copy, PartialEq, Eq, Debug)]
pub struct QuoteUpdate {
    pub centre: u32,
    pub side: Side,
    pub price: u32,
    pub size: u32,
}

/// A call that changes the quotes.
#[derive(Clone, Copy, PartialEq, Eq, Debug)]
pub enum QuoteCall {
    /// A market centre's quote changes.
    Tell(QuoteUpdate),
    /// A market centre comes under an exception: its quotes need not be honoured.
    Declare(u32),
    /// The exception of a market centre ends.
    Lift(u32),
}
