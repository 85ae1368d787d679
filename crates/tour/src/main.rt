//! A morning in one security, told to the venue event by event; one list of calls over two stacks of quotes;
//! and the refusals in words.
#![tactic(auto)]

mod calls;
mod comparison;
mod customers;
mod list;
mod morning;
mod refusals;
mod stack_runs;
mod tallies;
mod untold;
mod words;

use book::ledger::Book;
use calls::{FILL_PLACES, NO_FILL, follow_event};
use comparison::compare_stacks;
use customers::looked_at;
use desk::answers::Reply;
use desk::events::Event;
use desk::report::{HEAD, Market};
use morning::MORNING;
use quotes::source::{Excepting, protected_quotes};
use ranking::BestPair;
use refusals::print_refusals;
use stacks::venue_quotes;
use tallies::{Row, Tally, count, row_of};
use terms::orders::{Fill, RetailOrder};
use venue::answers::Answer;
use venue::venue::Venue;
use words::{Answered, Filled};

// An event takes one number at most, so no order of the morning has a number beyond the events.
const LAST_NUMBER: u32 = MORNING.len() as u32;

// A tally for each number, and one for 0, which no order has.
const TALLIES: usize = LAST_NUMBER as usize + 1;

// Prints the fills of a Retail Order, and what each saved the customer at the protected quotes.
fn print_fills(
    rt: &impl Print,
    order: RetailOrder,
    best: BestPair,
    fills: &[Fill],
) -> anyhow::Result<()> {
    let customer = order.side;
    let quote = looked_at(best, customer);
    for fill in fills {
        let filled = Filled {
            fill: *fill,
            customer,
            quote,
        };
        println!(rt; "    {filled}.")?;
    }
    Ok(())
}

// Prints what became of the shares of one order.
fn print_line(rt: &impl Print, number: u32, row: Row) -> anyhow::Result<()> {
    let Row {
        tally,
        resting,
        waiting,
        adds_up,
    } = row;
    let Tally {
        entered,
        filled,
        cancelled,
        away,
    } = tally;
    let sum = if adds_up {
        "adds up"
    } else {
        "DOES NOT ADD UP"
    };
    println!(rt;
        "{number:>5}  {entered:>7}  {filled:>6}  {cancelled:>9}  {away:>4}  {resting:>7}  {waiting:>9}  {sum}"
    )?;
    Ok(())
}

// Prints the table of every order's shares, from number 1 on.
fn print_table(rt: &impl Print, book: &Book, tallies: &[Tally]) -> anyhow::Result<()> {
    println!(rt; "")?;
    println!(rt; "What became of the shares of every order:")?;
    println!(rt; "Order  entered  filled  cancelled  away  resting  on a slip")?;
    for (number, tally) in (0u32..).zip(tallies).skip(1) {
        if tally.entered > 0 {
            print_line(rt, number, row_of(book, number, *tally))?;
        }
    }
    Ok(())
}

// Tells the venue the events one by one, prints what it answers and holds, and ends with every order's shares.
fn tell_morning<S: Excepting>(
    rt: &impl Print,
    venue: &mut Venue,
    quotes: &mut S,
) -> anyhow::Result<()> {
    let mut fills = [NO_FILL; FILL_PLACES];
    let mut tallies = [Tally::default(); TALLIES];
    for (number, (event, remark)) in (1u32..).zip(MORNING) {
        let before = protected_quotes(quotes);
        let answer = follow_event(venue, quotes, &mut fills, event);
        count(&mut tallies, event, answer, &fills);
        let reply = Reply(answer.map(Answered));
        println!(rt; "")?;
        println!(rt; "{number:>2}. {event}: {reply}. {remark}")?;
        if let (Event::Retail(order), Ok(Answer::Traded(trade))) = (event, answer) {
            print_fills(rt, order, before, &fills[..trade.fills])?;
        }
        let market = Market {
            book: venue.parts().0,
            quotes,
            last_number: LAST_NUMBER,
        };
        println!(rt; "{market}")?;
    }
    print_table(rt, venue.parts().0, &tallies)
}

fn main(rt: HostRuntime) -> anyhow::Result<()> {
    println!(rt; "{HEAD}")?;
    let mut quotes = venue_quotes();
    let mut venue = Venue::new(rt.alloc())?;
    let told = tell_morning(&rt, &mut venue, &mut quotes);
    let _ = venue.close();
    told?;
    compare_stacks(&rt, rt.alloc())?;
    print_refusals(&rt)
}
