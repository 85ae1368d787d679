//! What is asked of a Retail Order, and what becomes of its remainder.

ghost use Rattle.std.specs.Prelude.{◌≡◌, ◌<◌, true, length};
ghost use Rattle.rules.specs.Rules.{routable};
ghost use Rattle.laws.specs.Rows.{retail_in_range, retail_allowed};
ghost use Rattle.book.specs.Means.{remainder_of, waits, slips_after};

use crate::answers::Remainder;
use slips::list::SlipList;
use terms::limits::{is_valid_member, is_valid_order_size, is_valid_price};
use terms::orders::{Phase, RetailOrder, RetailType};

/// Whether every number of a Retail Order is in range.
pub(crate) fn is_retail_in_range(order: RetailOrder) -> bool
    ensures { result ≡ retail_in_range order }
{
    is_valid_member(order.member)
        && is_valid_price(order.limit)
        && is_valid_order_size(order.shares)
}

/// Whether Retail Orders are taken in a phase.
pub(crate) fn is_retail_allowed(phase: Phase) -> bool
    ensures { result ≡ retail_allowed phase }
{
    phase == Phase::Open
}

/// Whether the remainder of a Retail Order is routed away.
pub(crate) fn is_routable(kind: RetailType) -> bool
    ensures { result ≡ routable kind }
{
    kind == RetailType::TwoRoutable
}

/// What becomes of the remaining shares.
pub(crate) fn remainder_of(kind: RetailType, rest: u32) -> Remainder
    ensures { result ≡ remainder_of kind rest }
{
    if rest == 0 {
        Remainder::Nothing
    } else if is_routable(kind) {
        Remainder::Waiting(rest)
    } else {
        Remainder::Cancelled(rest)
    }
}

/// A remainder that waits is put on a slip, under the number of its Retail Order.
pub(crate) fn add_slip(slips: &mut SlipList, number: u32, remainder: Remainder)
    requires { waits remainder ≡ true → length slips.old.slips.items < 32 }
    ensures { slips.new.slips.items ≡ slips_after slips.old.slips.items number remainder }
{
    if let Remainder::Waiting(shares) = remainder {
        slips.add(number, shares).unwrap();
    }
}
