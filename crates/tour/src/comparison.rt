//! One list of calls over two stacks of quotes, and what it is answered over each.

use crate::calls::{FILL_PLACES, NO_FILL};
use crate::list::LIST;
use crate::stack_runs::run_events;
use crate::untold::Untold;
use crate::words::Answered;
use book::ledger::Book;
use desk::answers::Reply;
use desk::report::Market;
use desk::words::Price;
use exception_layer::ExceptionLayer;
use lot_layer::LotLayer;
use quotes::source::QuoteSource;
use scan_table::ScanTable;
use stacks::ROUND_LOT;
use std::alloc::Global;
use terms::orders::Fill;
use terms::refusals::Refusal;
use tournament_tree::TournamentTree;
use venue::answers::Answer;

// The lines above the list.
const LIST_HEAD: &str = "
One list of calls, run over two stacks of quotes, each from an empty book:
Tree:  an exception layer over the tournament tree. There are market centres 0 to 15, and a quote
       of any size is shown.
Table: a lot layer over an exception layer over a lot layer over the scan table. There are market
       centres 0 to 31, and a quote of fewer than 100 shares is not shown.";

// The shares of a lot in the lower of the two lot layers; the larger lot holds.
const LOWER_LOT: u32 = 50;

// No order of the list has a number beyond its events.
const LAST_NUMBER: u32 = LIST.len() as u32;

// Prints what a call is answered over one stack, with its fills.
fn print_answer(
    rt: &impl Print,
    stack: &str,
    told: Option<(Result<Answer, Refusal>, &[Fill])>,
) -> anyhow::Result<()> {
    let Some((answer, fills)) = told else {
        return Ok(());
    };
    let reply = Reply(answer.map(Answered));
    println!(rt; "    {stack} {reply}.")?;
    for fill in fills {
        let Fill {
            number,
            price,
            shares,
        } = *fill;
        let price = Price(Some(price));
        println!(rt; "           Filled from order {number}: {shares} shares at {price}.")?;
    }
    Ok(())
}

// Prints each event of the list, and what its call is answered over each stack.
fn print_list(rt: &impl Print, mut tree: Untold, mut table: Untold) -> anyhow::Result<()> {
    println!(rt; "{LIST_HEAD}")?;
    for (number, event) in (1u32..).zip(LIST) {
        println!(rt; "")?;
        println!(rt; "{number:>2}. {event}.")?;
        print_answer(rt, "Tree: ", tree.next())?;
        print_answer(rt, "Table:", table.next())?;
    }
    Ok(())
}

// Prints what stands at the end of the list over one stack.
fn print_end<S: QuoteSource>(
    rt: &impl Print,
    stack: &str,
    book: &Book,
    quotes: &S,
) -> anyhow::Result<()> {
    let market = Market {
        book,
        quotes,
        last_number: LAST_NUMBER,
    };
    println!(rt; "")?;
    println!(rt; "At the end, over the {stack}:")?;
    println!(rt; "{market}")?;
    Ok(())
}

/// Runs the list over both stacks, prints what each call is answered over each, and what stands at the end.
pub(crate) fn compare_stacks(rt: &impl Print, heap: Global) -> anyhow::Result<()> {
    let mut fills = [NO_FILL; FILL_PLACES];
    let mut tree = ExceptionLayer::new(TournamentTree::new());
    let lower = LotLayer::new(ScanTable::new(), LOWER_LOT);
    let mut table = LotLayer::new(ExceptionLayer::new(lower), ROUND_LOT);
    let over_tree = run_events(heap, &mut tree, &mut fills, &LIST)?.close();
    let over_table = run_events(heap, &mut table, &mut fills, &LIST)?.close();
    over_tree.end?;
    over_table.end?;
    print_list(rt, Untold::new(&over_tree), Untold::new(&over_table))?;
    print_end(rt, "tree", &over_tree.book, &tree)?;
    print_end(rt, "table", &over_table.book, &table)
}
