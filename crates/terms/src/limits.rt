//! The limits on every number that comes from outside.

ghost use Rattle.std.specs.Prelude.{◌≡◌};
ghost use Rattle.terms.specs.Limits.{is_price, is_offset, is_order_size, is_member, is_quote_size};

/// The lowest and the highest price, in mills.
pub const MIN_PRICE: u32 = 1;

pub const MAX_PRICE: u32 = 10_000_000;

/// The smallest and the largest offset, in mills.
pub const MIN_OFFSET: u32 = 1;

pub const MAX_OFFSET: u32 = 100_000;

/// The fewest and the most shares of an order.
pub const MIN_SHARES: u32 = 1;

pub const MAX_SHARES: u32 = 1_000_000;

/// Members are numbered from the first to the last of these.
pub const FIRST_MEMBER: u32 = 1;

pub const LAST_MEMBER: u32 = 64;

/// The largest size that a market centre is told to quote; 0 takes the quote away.
pub const MAX_QUOTE_SIZE: u32 = 1_000_000;

/// Order numbers run from the first to the last of these, in one series.
pub const FIRST_ORDER_NUMBER: u32 = 1;

pub const LAST_ORDER_NUMBER: u32 = 500_000;

/// A source of quotes has at least one market centre and at most so many.
pub const MIN_CENTRES: usize = 1;

pub const MAX_CENTRES: usize = 64;

// Form: a function for each limit, since each limit is a rule of its own name; what they share is the library's range.

/// Whether a price is in range.
pub fn is_valid_price(mills: u32) -> bool
    ensures { result ≡ is_price mills }
{
    (MIN_PRICE..=MAX_PRICE).contains(&mills)
}

/// Whether an offset is in range.
pub fn is_valid_offset(mills: u32) -> bool
    ensures { result ≡ is_offset mills }
{
    (MIN_OFFSET..=MAX_OFFSET).contains(&mills)
}

/// Whether an order's shares are in range.
pub fn is_valid_order_size(shares: u32) -> bool
    ensures { result ≡ is_order_size shares }
{
    (MIN_SHARES..=MAX_SHARES).contains(&shares)
}

/// Whether there is such a member.
pub fn is_valid_member(member: u32) -> bool
    ensures { result ≡ is_member member }
{
    (FIRST_MEMBER..=LAST_MEMBER).contains(&member)
}

/// Whether a market centre may be told to quote this size.
pub fn is_valid_quote_size(size: u32) -> bool
    ensures { result ≡ is_quote_size size }
{
    size <= MAX_QUOTE_SIZE
}
