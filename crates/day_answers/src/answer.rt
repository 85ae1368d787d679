//! A line of the answers.

/// What a line of the answers tells; each has a letter in the file.
#[derive(Clone, Copy, PartialEq, Eq, Debug)]
pub enum Code {
    /// F: shares of a resting order were filled, at a price.
    Fill,
    /// R: a Retail Order was filled, with these shares in all.
    Filled,
    /// K: what remained of a Retail Order or a slip was cancelled.
    Cancelled,
    /// S: what remained of a Retail Order waits on a slip.
    Waiting,
    /// B: shares of a slip were executed away.
    Away,
    /// N: a call was refused, or a line or the file has a fault.
    Refused,
    /// E: an order was entered.
    Entered,
    /// C: an order was cancelled by its member.
    Left,
    /// A: a member was approved.
    Approved,
    /// W: a member's approval was withdrawn.
    Withdrawn,
    /// T: a quote was told.
    Told,
    /// P: the day moved to another phase.
    Moved,
    /// X: an exception was declared.
    Declared,
    /// L: an exception was lifted.
    Lifted,
    /// I: the liquidity identifier.
    Identifier,
}

/// A line of the answers: the line of the day file that it answers, its code, and the numbers that it has.
#[derive(Clone, Copy, PartialEq, Eq, Debug)]
pub struct AnswerLine {
    pub line: u32,
    pub code: Code,
    /// The field that the file calls `ref`.
    pub number: Option<u32>,
    pub price: Option<u32>,
    pub shares: Option<u32>,
}
