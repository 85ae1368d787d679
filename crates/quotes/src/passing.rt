//! What is let through of the quotes that a source shows.

ghost use Rattle.std.specs.Prelude.{◌≡◌, ℕ, Bool, ◌&&◌};
ghost use Rattle.terms.specs.declared.market.Quote.{Quote as Quoted};

use terms::market::Quote;

/// What a layer lets through of the quotes that are shown below it.
// Form: a trait and no closure, since what a source means with a filter over it is stated of the filter.
pub trait Filter {
    ghost passes: { Self → ℕ → Quoted → Bool };

    /// Whether a centre's quote is let through.
    fn lets_through(&self, centre: u32, quote: Quote) -> bool
        ensures { result ≡ passes self.now centre quote };
}

/// Two filters as one, which lets through what both let through.
#[derive(Clone, Copy)]
pub struct Both<'a, F, G> {
    pub first: &'a F,
    pub second: &'a G,
}

impl<F: Filter, G: Filter> Filter for Both<'_, F, G> {
    ghost passes = { λ b centre quote. F.passes b.first.now centre quote && G.passes b.second.now centre quote };

    fn lets_through(&self, centre: u32, quote: Quote) -> bool {
        self.first.lets_through(centre, quote) && self.second.lets_through(centre, quote)
    }
}
