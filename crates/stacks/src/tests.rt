//! Stacks of layers over both sources, on cases worked by hand.

ghost use Rattle.std.specs.Prelude.{◌≡◌, not, nat_eq};

use exception_layer::ExceptionLayer;
use lot_layer::LotLayer;
use quotes::passing::Filter;
use quotes::source::{Excepting, QuoteSource, protected_quotes};
use scan_table::ScanTable;
use std::process::Abort;
use terms::market::{Quote, QuoteUpdate, Side};
use terms::refusals::Refusal;
use tournament_tree::TournamentTree;

// What a centre is told.
fn update(centre: u32, side: Side, price: u32, size: u32) -> QuoteUpdate
    ensures { result ≡ record { centre = centre; side = side; price = price; size = size } }
{
    QuoteUpdate {
        centre,
        side,
        price,
        size,
    }
}

// A tell, and the protected bid and offer after it.
// Form: a row of a table, so that a case stands in a line.
struct Step(u32, Side, u32, u32, Option<u32>, Option<u32>);

const TIES: [Step; 12] = [
    Step(0, Side::Buy, 10_000, 100, Some(10_000), None),
    Step(15, Side::Buy, 10_000, 300, Some(10_000), None),
    Step(7, Side::Buy, 9_990, 500, Some(10_000), None),
    Step(15, Side::Sell, 10_050, 100, Some(10_000), Some(10_050)),
    Step(0, Side::Sell, 10_050, 200, Some(10_000), Some(10_050)),
    Step(8, Side::Sell, 10_060, 200, Some(10_000), Some(10_050)),
    // one of two leaders leaves, and then the other
    Step(0, Side::Buy, 0, 0, Some(10_000), Some(10_050)),
    Step(15, Side::Buy, 1, 0, Some(9_990), Some(10_050)),
    Step(15, Side::Sell, 0, 0, Some(9_990), Some(10_050)),
    Step(0, Side::Sell, 0, 0, Some(9_990), Some(10_060)),
    Step(7, Side::Buy, 0, 0, None, Some(10_060)),
    Step(8, Side::Sell, 0, 0, None, None),
];

// Tells each step, and compares the protected quotes after it. The constant of the source is its number of centres.
fn follow<S: QuoteSource>(rt: &impl Abort, source: &mut S, steps: &[Step]) {
    assert_eq!(rt; S::CENTRES, S::centre_count() as usize);
    for &Step(centre, side, price, size, bid, offer) in steps {
        assert_eq!(rt; source.tell(update(centre, side, price, size)), Ok(()));
        assert_eq!(rt; protected_quotes(source), (bid, offer));
    }
}

#[test]
fn ties_on_both_sources_and_through_layers(rt: HostRuntime) {
    let mut scan = ScanTable::new();
    follow(&rt, &mut scan, &TIES);
    let mut tree = TournamentTree::new();
    follow(&rt, &mut tree, &TIES);
    let mut three = LotLayer::new(
        ExceptionLayer::new(LotLayer::new(ScanTable::new(), 50)),
        100,
    );
    follow(&rt, &mut three, &TIES);
    let mut four = ExceptionLayer::new(LotLayer::new(
        ExceptionLayer::new(LotLayer::new(TournamentTree::new(), 0)),
        100,
    ));
    follow(&rt, &mut four, &TIES);
}

// The quotes of three centres as tells of 99, 100 and 50 shares, seen through a stack.
fn seen_sizes<S: QuoteSource>(
    rt: &impl Abort,
    source: &mut S,
    bid: Option<u32>,
    small: Option<Quote>,
) {
    assert_eq!(rt; source.tell(update(1, Side::Buy, 10_030, 99)), Ok(()));
    assert_eq!(rt; source.tell(update(2, Side::Buy, 10_020, 100)), Ok(()));
    assert_eq!(rt; source.tell(update(3, Side::Buy, 10_040, 50)), Ok(()));
    assert_eq!(rt; source.best(), (bid, None));
    assert_eq!(rt; source.ask(3, Side::Buy), small);
}

#[test]
fn the_larger_lot_holds_whichever_layer_has_it(rt: HostRuntime) {
    let fifty = Some(Quote {
        price: 10_040,
        size: 50,
    });
    let mut above = LotLayer::new(
        ExceptionLayer::new(LotLayer::new(ScanTable::new(), 50)),
        100,
    );
    seen_sizes(&rt, &mut above, Some(10_020), None);
    let mut below = LotLayer::new(
        ExceptionLayer::new(LotLayer::new(TournamentTree::new(), 100)),
        50,
    );
    seen_sizes(&rt, &mut below, Some(10_020), None);
    let mut exact = LotLayer::new(LotLayer::new(LotLayer::new(ScanTable::new(), 0), 50), 49);
    seen_sizes(&rt, &mut exact, Some(10_040), fifty);
    let mut one = LotLayer::new(TournamentTree::new(), 0);
    assert_eq!(rt; one.tell(update(4, Side::Sell, 10_050, 1)), Ok(()));
    assert_eq!(rt; one.best(), (None, Some(10_050)));
}

#[test]
fn the_uppermost_exception_layer_takes_the_calls(rt: HostRuntime) {
    let mut inner = ExceptionLayer::new(TournamentTree::new());
    assert_eq!(rt; inner.declare(3), Ok(()));
    let mut stack = LotLayer::new(ExceptionLayer::new(LotLayer::new(inner, 10)), 100);
    assert_eq!(rt; stack.tell(update(3, Side::Buy, 10_030, 500)), Ok(()));
    assert_eq!(rt; stack.tell(update(4, Side::Buy, 10_020, 500)), Ok(()));
    assert_eq!(rt;
        stack.best(),
        (Some(10_020), None),
        "centre 3 is excepted below"
    );
    assert_eq!(rt; stack.lift(3), Ok(()));
    assert_eq!(rt; stack.best(), (Some(10_020), None), "and stays so");
    assert_eq!(rt; stack.declare(4), Ok(()));
    assert_eq!(rt; stack.declare(4), Ok(()));
    assert_eq!(rt; stack.best(), (None, None));
    assert_eq!(rt; stack.lift(4), Ok(()));
    assert_eq!(rt;
        stack.best(),
        (Some(10_020), None),
        "one lift ends two declarations"
    );
}

#[test]
fn what_is_told_under_an_exception_is_kept(rt: HostRuntime) {
    let mut stack = ExceptionLayer::new(LotLayer::new(ExceptionLayer::new(ScanTable::new()), 100));
    assert_eq!(rt; stack.declare(31), Ok(()));
    assert_eq!(rt; stack.tell(update(31, Side::Sell, 10_050, 100)), Ok(()));
    assert_eq!(rt; stack.ask(31, Side::Sell), None);
    assert_eq!(rt; stack.lift(31), Ok(()));
    assert_eq!(rt;
        stack.ask(31, Side::Sell),
        Some(Quote {
            price: 10_050,
            size: 100,
        })
    );
    assert_eq!(rt; stack.ask(31, Side::Buy), None);
    assert_eq!(rt; stack.best(), (None, Some(10_050)));
}

// A filter of the test's own, over a stack: all centres but one.
#[derive(Clone, Copy)]
struct AllBut {
    centre: u32,
}

impl Filter for AllBut {
    ghost passes = { λ f centre _. not (nat_eq centre f.centre) };

    fn lets_through(&self, centre: u32, _quote: Quote) -> bool {
        centre != self.centre
    }
}

// On either side an odd lot has the best price, an excepted centre the next, two centres tie after it, and one is last.
fn searched<S: Excepting>(rt: &impl Abort, source: &mut S) {
    for (centre, price, size) in [
        (2, 10_040, 99),
        (5, 10_030, 500),
        (9, 10_020, 100),
        (3, 10_020, 300),
        (0, 10_010, 900),
    ] {
        assert_eq!(rt; source.tell(update(centre, Side::Buy, price, size)), Ok(()));
        assert_eq!(rt;
            source.tell(update(centre + 1, Side::Sell, 20_090 - price, size)),
            Ok(())
        );
    }
    assert_eq!(rt; source.best(), (Some(10_030), Some(10_060)));
    assert_eq!(rt; source.declare(5), Ok(()));
    assert_eq!(rt; source.declare(6), Ok(()));
    assert_eq!(rt; source.best(), (Some(10_020), Some(10_070)));
    assert_eq!(rt; source.tell(update(3, Side::Buy, 0, 0)), Ok(()));
    assert_eq!(rt; source.tell(update(10, Side::Sell, 0, 0)), Ok(()));
    assert_eq!(rt;
        source.best(),
        (Some(10_020), Some(10_070)),
        "one of two is left"
    );
    assert_eq!(rt;
        source.best_passing(&AllBut { centre: 9 }),
        (Some(10_010), Some(10_070))
    );
    assert_eq!(rt;
        source.best_passing(&AllBut { centre: 4 }),
        (Some(10_020), Some(10_080))
    );
    assert_eq!(rt; source.tell(update(2, Side::Buy, 10_040, 100)), Ok(()));
    assert_eq!(rt; source.lift(6), Ok(()));
    assert_eq!(rt; source.best(), (Some(10_040), Some(10_060)));
}

#[test]
fn a_search_goes_through_every_layer(rt: HostRuntime) {
    let mut scan = LotLayer::new(
        ExceptionLayer::new(LotLayer::new(ScanTable::new(), 50)),
        100,
    );
    searched(&rt, &mut scan);
    let mut tree = LotLayer::new(
        LotLayer::new(ExceptionLayer::new(TournamentTree::new()), 100),
        50,
    );
    searched(&rt, &mut tree);
}

// Tells at the edges of the ranges, with the last centre of a source and the one beyond it.
fn edges<S: QuoteSource>(rt: &impl Abort, source: &mut S, last: u32, beyond: u32) {
    let refused = Err(Refusal::OutOfRange);
    assert_eq!(rt; source.tell(update(last, Side::Buy, 1, 1)), Ok(()));
    assert_eq!(rt;
        source.tell(update(0, Side::Sell, 10_000_000, 1_000_000)),
        Ok(())
    );
    assert_eq!(rt;
        source.tell(update(beyond, Side::Buy, 10_000, 100)),
        refused
    );
    assert_eq!(rt; source.tell(update(beyond, Side::Buy, 10_000, 0)), refused);
    assert_eq!(rt; source.tell(update(0, Side::Buy, 0, 100)), refused);
    assert_eq!(rt; source.tell(update(0, Side::Buy, 10_000_001, 100)), refused);
    assert_eq!(rt;
        source.tell(update(0, Side::Buy, 10_000, 1_000_001)),
        refused
    );
    assert_eq!(rt;
        source.best(),
        (Some(1), Some(10_000_000)),
        "a refused tell leaves the quotes"
    );
    assert_eq!(rt; source.ask(beyond, Side::Buy), None);
    assert_eq!(rt;
        source.tell(update(last, Side::Buy, 10_000_001, 0)),
        Ok(()),
        "a size of 0 looks at no price"
    );
    assert_eq!(rt; source.best(), (None, Some(10_000_000)));
}

#[test]
fn the_edges_of_centres_prices_and_sizes(rt: HostRuntime) {
    let mut scan = LotLayer::new(ExceptionLayer::new(LotLayer::new(ScanTable::new(), 1)), 0);
    edges(&rt, &mut scan, 31, 32);
    assert_eq!(rt; scan.declare(31), Ok(()));
    assert_eq!(rt; scan.declare(32), Err(Refusal::OutOfRange));
    assert_eq!(rt; scan.lift(32), Err(Refusal::OutOfRange));
    let mut tree = ExceptionLayer::new(LotLayer::new(
        ExceptionLayer::new(TournamentTree::new()),
        1,
    ));
    edges(&rt, &mut tree, 15, 16);
    assert_eq!(rt; tree.declare(15), Ok(()));
    assert_eq!(rt; tree.declare(16), Err(Refusal::OutOfRange));
    assert_eq!(rt; tree.lift(16), Err(Refusal::OutOfRange));
}
