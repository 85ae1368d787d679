//! Why a call is refused.

ghost use Rattle.std.specs.Prelude.{◌≡◌, ℕ, Some};
ghost use Rattle.terms.specs.declared.refusals.Refusal.{Refusal as Reason};
ghost use Rattle.terms.specs.Refusals.{refusal_number, refusal_words};

use std::error::Error;
use std::fmt;

/// Every reason for which a call is refused, in the order in which they are tried and numbered.
#[derive(Clone, Copy, PartialEq, Eq, Debug)]
pub enum Refusal {
    /// A number of the call (member, centre, price, offset or shares) is outside its range, or a told size is too large.
    OutOfRange = 1,
    /// A hidden or displayed order has a limit of a dollar or more with a part of a cent in it.
    NotWholeCent,
    /// An order that is not an RPI Order has an offset.
    OffsetNotRpi,
    /// The phase of the day does not allow the call.
    WrongPhase,
    /// A Retail Order of a member that is not approved.
    NotApproved,
    /// The list lent for the fills has too few places.
    ShortFillList,
    /// As many orders rest as the book can hold.
    BookFull,
    /// The last order number was given.
    NumbersExhausted,
    /// No resting order has this number and this member.
    NoSuchOrder,
    /// As many slips wait or are drawn as the book can hold.
    SlipsFull,
    /// No waiting slip has this number.
    NoWaitingSlip,
    /// No drawn slip has this number and these shares.
    NoDrawnSlip,
    /// More shares are reported as executed away than the slip has.
    MoreThanSlip,
}

impl Refusal {
    /// The number that stands for the refusal in what is written out. No other refusal has it, nor is any other told in
    /// the same words.
    pub fn number(self) -> u32
        ensures value { result ≡ refusal_number self }
        ensures only { (other : Reason) → refusal_number other ≡ result → other ≡ self }
        ensures words { (other : Reason) → refusal_words other ≡ refusal_words self → other ≡ self }
    {
        self as u32
    }
}

impl fmt::Display for Refusal {
    ghost output = { λ r. Some (refusal_words r) };

    fn fmt<W: fmt::Write>(&self, f: &mut fmt::Formatter<W>) -> fmt::Result {
        f.write_str(match self {
            Refusal::OutOfRange => "out of range",
            Refusal::NotWholeCent => "not a whole cent",
            Refusal::OffsetNotRpi => "an offset on an order that is not RPI",
            Refusal::WrongPhase => "not in this phase",
            Refusal::NotApproved => "member not approved",
            Refusal::ShortFillList => "fill list too short",
            Refusal::BookFull => "book full",
            Refusal::NumbersExhausted => "no order number left",
            Refusal::NoSuchOrder => "no such order",
            Refusal::SlipsFull => "too many slips out",
            Refusal::NoWaitingSlip => "no such slip waiting",
            Refusal::NoDrawnSlip => "no such slip drawn",
            Refusal::MoreThanSlip => "more shares than on the slip",
        })
    }
}

impl Error for Refusal {}
