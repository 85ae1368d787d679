//! What holds of the rules, whatever the quotes and the orders.

ghost use Rattle.std.specs.Prelude.{◌≡◌, true};
ghost use Rattle.rules.specs.Allotment.{FillsHaveMost, FillsCostBest};
ghost use Rattle.rules.specs.RuleLaws.{RulesAlwaysHold, FillsKeepPriority};
ghost use Rattle.rules.specs.WorkedPrices.{nine_prices, turns_at_one_price};

/// The nine worked prices come out of the rules, and so do the turns at one price.
// Form: here and below a number as the body, the project's mark of a function that only carries a statement.
pub fn worked_prices_hold() -> u32
    ensures nine { nine_prices ≡ true }
    ensures turns { turns_at_one_price ≡ true }
{
    0
}

/// Of the eligible shares nobody can allot a Retail Order more than the fills in their sequence do.
pub fn fills_have_most() -> u32
    ensures { FillsHaveMost }
{
    0
}

/// Nobody can allot it as many shares at a better cost for the customer.
#[tactic(auto, using(crate::proofs::Best::fills_cost_best))]
pub fn fills_cost_best() -> u32
    ensures { FillsCostBest }
{
    0
}

/// Along the fills each order is ahead of every later one, and every eligible order ahead of a filled one is filled
/// whole.
#[tactic(auto, using(crate::proofs::Priority::fills_keep_priority))]
pub fn fills_keep_priority() -> u32
    ensures { FillsKeepPriority }
{
    0
}

/// Each rule is what its plain relation says.
#[tactic(auto, using(crate::proofs::Relations::rules_hold))]
pub fn rules_hold() -> u32
    ensures { RulesAlwaysHold }
{
    0
}
