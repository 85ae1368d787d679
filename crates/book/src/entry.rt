//! What is asked of an order before it may rest.

ghost use Rattle.std.specs.Prelude.{◌≡◌};
ghost use Rattle.laws.specs.Book.{rests_as};
ghost use Rattle.laws.specs.Rows.{offset_in_range, entry_in_range, is_ordinary, broken_cent, entry_allowed};

use terms::limits::{is_valid_member, is_valid_offset, is_valid_order_size, is_valid_price};
use terms::orders::{NewOrder, OrderKind, Phase, RestingOrder};

/// From this price on, in mills, ordinary orders are at whole cents; a cent has so many mills.
const WHOLE_CENTS_FROM: u32 = 1_000;

const MILLS_IN_A_CENT: u32 = 10;

fn is_offset_in_range(offset: Option<u32>) -> bool
    ensures { result ≡ offset_in_range offset }
{
    offset.is_none_or(is_valid_offset)
}

/// Whether every number of an order is in range.
pub(crate) fn is_in_range(order: NewOrder) -> bool
    ensures { result ≡ entry_in_range order }
{
    is_valid_member(order.member)
        && is_valid_price(order.limit)
        && is_offset_in_range(order.offset)
        && is_valid_order_size(order.shares)
}

/// Whether an order is hidden or displayed.
pub(crate) fn is_ordinary(kind: OrderKind) -> bool
    ensures { result ≡ is_ordinary kind }
{
    kind != OrderKind::Rpi
}

/// Whether a price is a dollar or more, and not a whole cent.
pub(crate) fn is_broken_cent(mills: u32) -> bool
    ensures { result ≡ broken_cent mills }
{
    WHOLE_CENTS_FROM <= mills && mills % MILLS_IN_A_CENT != 0
}

/// Whether orders may be entered in a phase.
pub(crate) fn is_entry_allowed(phase: Phase) -> bool
    ensures { result ≡ entry_allowed phase }
{
    phase != Phase::Closed
}

/// The order as it rests under a number.
pub(crate) fn rests_as(number: u32, order: NewOrder) -> RestingOrder
    ensures { result ≡ rests_as number order }
{
    let NewOrder {
        member,
        side,
        kind,
        limit,
        offset,
        shares,
    } = order;
    RestingOrder {
        number,
        member,
        side,
        kind,
        limit,
        offset,
        shares,
    }
}
