//! The refusals, with their numbers and words.

use terms::refusals::Refusal;

// Every refusal, in the order of the numbers.
const REFUSALS: [Refusal; 13] = [
    Refusal::OutOfRange,
    Refusal::NotWholeCent,
    Refusal::OffsetNotRpi,
    Refusal::WrongPhase,
    Refusal::NotApproved,
    Refusal::ShortFillList,
    Refusal::BookFull,
    Refusal::NumbersExhausted,
    Refusal::NoSuchOrder,
    Refusal::SlipsFull,
    Refusal::NoWaitingSlip,
    Refusal::NoDrawnSlip,
    Refusal::MoreThanSlip,
];

/// Prints the number and the words of every refusal.
pub(crate) fn print_refusals(rt: &impl Print) -> anyhow::Result<()> {
    println!(rt; "")?;
    println!(rt; "Refusals:")?;
    for why in REFUSALS {
        let number = why.number();
        println!(rt; "{number:>2}  {why}")?;
    }
    Ok(())
}
