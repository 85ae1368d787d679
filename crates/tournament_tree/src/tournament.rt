//! The tournament of one side of the market.

ghost use Rattle.std.specs.Prelude.{◌≡◌, ℕ, ◌+◌, ◌*◌, ◌<◌, ◌≤◌, if◌then◌else◌, Some, ◌≢◌, nat_eq, nat_lt, replicate, None};
ghost use Rattle.terms.specs.declared.market.Quote.{Quote as Quoted};
ghost use Rattle.terms.specs.Words.{only_if};
ghost use Rattle.quotes.specs.Quotes.{leader};
ghost use Rattle.tournament_tree.specs.Tournament.{passing_at, winner, node, shown_at, Won, AllWon, Sound};

use quotes::passing::Filter;
use quotes::prices::{leading_price, quoted_price};
use quotes::search::leader_after;
use terms::market::{Quote, Side};

// The places: 1 is the root, the children of k are 2k and 2k + 1, and the centres stand from the first leaf on.
// Place 0 is not used.
// Form: the tree stands in an array, since a source has fixed memory and its calls allocate nothing.
const PLACES: usize = 2 * FIRST_LEAF;

/// The place of the first centre, which is also the number of centres.
pub(crate) const FIRST_LEAF: usize = 16;

/// A tournament of one side between 16 market centres.
#[derive(Drop)]
pub(crate) struct Tournament {
    side: Side,
    places: [Option<Quote>; PLACES],
    ghost sound: { Sound side places },
}

// Of two quotes, either of which may be absent, the one with the better price; the first of two at one price.
fn winner_of(side: Side, a: Option<Quote>, b: Option<Quote>) -> Option<Quote>
    ensures { result ≡ winner side a b }
{
    let (Some(first), Some(second)) = (a, b) else {
        return a.or(b);
    };
    let best = leading_price(side, Some(first.price), Some(second.price));
    if best == Some(first.price) { a } else { b }
}

// Decides the pairs again from a place up to the root.
// Form: it takes the places and the side alone, since they make no `Tournament` while pairs are undecided.
fn replay(places: &mut [Option<Quote>; PLACES], side: Side, from: usize)
    requires inner { from < 16 }
    requires others { (k : ℕ) → 1 ≤ k → k < 16 → (k ≢ from) → Won side places.old k }
    ensures won { AllWon side places.new }
    ensures leaves { (k : ℕ) → 16 ≤ k → node places.new k ≡ node places.old k }
{
    let mut k = from;
    // Form: a place that is halved at each turn; `successors` with a test for its end is no plainer.
    while k >= 1 {
        places[k] = winner_of(side, places[2 * k], places[2 * k + 1]);
        k /= 2;
    }
}

impl Tournament {
    // A tournament without quotes.
    pub(crate) fn new(side: Side) -> Self
        ensures side { result.side ≡ side }
        ensures places { result.places ≡ replicate 32 None }
    {
        Tournament {
            side,
            places: [None; PLACES],
        }
    }

    // Puts a centre's quote in its place, and decides its pairs again.
    pub(crate) fn set(&mut self, centre: usize, quote: Option<Quote>)
        requires within { centre < 16 }
        requires sized { (q : Quoted) → quote ≡ Some q → 1 ≤ q.size }
        ensures side { self.new.side ≡ self.old.side }
        ensures leaves { (k : ℕ) → node self.new.places (16 + k) ≡ (if nat_eq k centre then quote else node self.old.places (16 + k)) }
    {
        self.places[FIRST_LEAF + centre] = quote;
        replay(&mut self.places, self.side, (FIRST_LEAF + centre) / 2);
    }

    // A centre's quote; a centre beyond the last has none.
    pub(crate) fn quote(&self, centre: u32) -> Option<Quote>
        ensures { result ≡ only_if (nat_lt centre 16) (shown_at self.now.places centre) }
    {
        *self.places.get(FIRST_LEAF + centre as usize)?
    }

    // The best price of the centres' quotes.
    #[tactic(auto, using(crate::proofs::Pairs::best_shown))]
    pub(crate) fn best(&self) -> Option<u32>
        ensures { result ≡ leader self.now.side (shown_at self.now.places) 16 }
    {
        quoted_price(self.places[1])
    }

    // The best price of the centres' quotes that a filter lets through.
    pub(crate) fn best_passing<F: Filter>(&self, filter: &F) -> Option<u32>
        ensures { result ≡ leader self.now.side (passing_at (F.passes filter.now) self.now.places) 16 }
    {
        let mut best = None;
        for centre in 0..FIRST_LEAF as u32 {
            best = leader_after(self.side, best, filter, centre, self.quote(centre));
        }
        best
    }
}
