//! What the book holds.

ghost use Rattle.std.specs.Prelude.{◌≡◌, ℕ, ◌≤◌, true, ◌++◌, length};
ghost use Rattle.terms.specs.declared.market.Side.TheVariants.{Buy, Sell};
ghost use Rattle.terms.specs.Words.{same_side};
ghost use Rattle.book.specs.Numbered.{is_numbered};

use queues::side::SideQueues;
use register::Register;
pub use slips::list::MAX_SLIPS;
use slips::list::SlipList;
use terms::orders::Phase;

pub mod calls;
pub mod routing;
pub mod trades;

/// A book: the phase of its day, the approved members, the last order number given, the resting orders of both sides, and
/// the slips.
#[derive(Drop)]
pub struct Book {
    phase: Phase,
    register: Register,
    last: u32,
    buys: SideQueues,
    sells: SideQueues,
    slips: SlipList,
    ghost buying: { same_side buys.side Buy ≡ true },
    ghost selling: { same_side sells.side Sell ≡ true },
    ghost numbered: { is_numbered last ((buys.fixed.items ++ buys.following.items) ++ (sells.fixed.items ++ sells.following.items)) ≡ true },
    ghost few: { length ((buys.fixed.items ++ buys.following.items) ++ (sells.fixed.items ++ sells.following.items)) ≤ 256 },
    ghost given: { last ≤ 500000 },
}
