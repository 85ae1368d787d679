//! What the calls of the book answer.

/// The number that an order was given, and the shares that were entered.
#[derive(Clone, Copy, PartialEq, Eq, Debug)]
pub struct EntryAnswer {
    pub number: u32,
    pub shares: u32,
}

/// The number of an order, and the shares of it that were cancelled.
// Form: a type of its own beside `EntryAnswer`, so that shares that leave are not taken for shares that rest.
#[derive(Clone, Copy, PartialEq, Eq, Debug)]
pub struct CancelAnswer {
    pub number: u32,
    pub shares: u32,
}

/// What becomes of the shares of a Retail Order that are not filled.
#[derive(Clone, Copy, PartialEq, Eq, Debug)]
pub enum Remainder {
    /// All shares are filled.
    Nothing,
    /// So many are cancelled.
    Cancelled(u32),
    /// So many wait on a slip, to be routed away.
    Waiting(u32),
}

/// The number that a Retail Order was given, how many fills stand at the front of the fill list, their shares in all, and
/// the remainder.
#[derive(Clone, Copy, PartialEq, Eq, Debug)]
pub struct RetailAnswer {
    pub number: u32,
    // Form: a count, since the answer is kept while the list is lent to the next call.
    pub fills: usize,
    pub filled: u32,
    pub remainder: Remainder,
}

/// On which sides RPI interest is there for Retail Orders.
#[derive(Clone, Copy, PartialEq, Eq, Debug)]
pub enum Identifier {
    Neither,
    Buys,
    Sells,
    Both,
}
