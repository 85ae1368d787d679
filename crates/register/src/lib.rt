//! The register of the members that are approved to send Retail Orders.
#![tactic(auto)]

ghost use Rattle.std.specs.Prelude.{◌≡◌, true, false};
ghost use Rattle.laws.specs.Book.{approved_up_to};
ghost use Rattle.register.specs.Register.{approved_in, member_answer, member_bit, member_set};

use terms::limits::{FIRST_MEMBER, is_valid_member};
use terms::refusals::Refusal;

// The bit of a member; a number that is no member's is refused.
fn bit_of(member: u32) -> Result<u64, Refusal>
    ensures { result ≡ member_bit member }
{
    if is_valid_member(member) {
        Ok(1 << (member - FIRST_MEMBER))
    } else {
        Err(Refusal::OutOfRange)
    }
}

/// A set of members, by one bit for each.
// Form: one word with a bit for each member, so that the members are counted by counting ones.
#[derive(Clone, Copy, PartialEq, Eq, Debug)]
pub struct Register {
    word: u64,
}

impl Register {
    /// The register of nobody.
    pub fn new() -> Self
        ensures { approved_in result.word ≡ (λ _. false) }
    {
        Register { word: 0 }
    }

    /// Whether a member is approved; a number that is no member's is not.
    #[tactic(auto, using(crate::proofs::Words::has_bit, crate::proofs::Words::no_bit))]
    pub fn contains(&self, member: u32) -> bool
        ensures { result ≡ approved_in self.now.word member }
    {
        bit_of(member).is_ok_and(|bit| self.word & bit != 0)
    }

    /// Approves a member, which may be approved already; a number that is no member's is refused.
    #[tactic(auto, using(crate::proofs::Words::approved))]
    pub fn approve(&mut self, member: u32) -> Result<(), Refusal>
        ensures answer { result ≡ member_answer member }
        ensures after { approved_in self.new.word ≡ member_set member true (approved_in self.old.word) }
    {
        self.word |= bit_of(member)?;
        Ok(())
    }

    /// Withdraws a member, which may not be approved; a number that is no member's is refused.
    #[tactic(auto, using(crate::proofs::Words::withdrawn))]
    pub fn withdraw(&mut self, member: u32) -> Result<(), Refusal>
        ensures answer { result ≡ member_answer member }
        ensures after { approved_in self.new.word ≡ member_set member false (approved_in self.old.word) }
    {
        self.word &= !bit_of(member)?;
        Ok(())
    }

    /// How many members are approved.
    #[tactic(auto, using(crate::proofs::Words::ones_count))]
    pub fn count(&self) -> u32
        ensures { result ≡ approved_up_to (approved_in self.now.word) 64 }
    {
        self.word.count_ones()
    }
}
