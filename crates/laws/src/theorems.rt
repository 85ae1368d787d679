//! What holds of every run of calls.

ghost use Rattle.std.specs.Prelude.{◌≡◌, true};
ghost use Rattle.laws.specs.Bites.{TradesBite};
ghost use Rattle.laws.specs.CallBites.{CallsBite};
ghost use Rattle.laws.specs.Law.{EveryDayBegins, twelve_moves, phases_allow, orders_by_phase, others_always, TheBookKeepsTheLaw};
ghost use Rattle.laws.specs.Sound.{StaysSound, AlwaysSound, FillsFit};
ghost use Rattle.laws.specs.WorkedDay.{morning, day_calls, day_answers, answers};

/// The worked day is answered as it is written down.
// Form: here and below a number as the body, the project's mark of a function that only carries a statement.
#[tactic(auto, unfolding(quotes::specs::Quotes::leader))]
pub fn worked_day_holds() -> u32
    ensures { answers 32 morning day_calls ≡ day_answers }
{
    0
}

/// A day begins early and empty; the phases lead where they should, and each allows what it should.
pub fn phases_hold() -> u32
    ensures begins { EveryDayBegins }
    ensures moves { twelve_moves ≡ true }
    ensures allows { phases_allow ≡ true }
    ensures orders { orders_by_phase ≡ true }
    ensures others { others_always ≡ true }
{
    0
}

/// The book stays sound, whatever is called, and its fills find room in 256 places.
#[tactic(auto, using(crate::proofs::Soundness::sound_step, crate::proofs::Soundness::always_sound, crate::proofs::Room::fills_fit))]
pub fn book_stays_sound() -> u32
    ensures each { StaysSound }
    ensures always { AlwaysSound }
    ensures fit { FillsFit }
{
    0
}

/// The law stands, over every number of centres, every starting quotes, every fill list and every list of calls.
pub fn the_law_stands() -> u32
    ensures { TheBookKeepsTheLaw }
{
    0
}

/// The law bites: small trades, answers and states that are wrong in one way each contradict the part of it that says so.
#[tactic(auto, using(crate::proofs::Bites::trades_bite, crate::proofs::CallBites::calls_bite))]
pub fn the_law_bites() -> u32
    ensures trades { TradesBite }
    ensures calls { CallsBite }
{
    0
}
