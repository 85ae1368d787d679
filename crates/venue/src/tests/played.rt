//! A run of calls on an empty book, which is closed: every slip that is still out comes back.

use crate::answers::Answer;
use crate::runs::{ClosedRun, run};
use scan_table::ScanTable;
use std::alloc::{AllocError, Global};
use std::process::Abort;
use std::test::*;
use terms::calls::Call;
use terms::market::QuoteUpdate;
use terms::orders::Fill;
use terms::refusals::Refusal;

// What a place of a fill list holds before.
const BLANK: Fill = Fill {
    number: 7,
    price: 8,
    shares: 9,
};

// What was written on a slip that was out.
#[derive(Clone, Copy, PartialEq, Eq, Debug)]
pub(super) struct SlipOut {
    pub(super) number: u32,
    pub(super) shares: u32,
}

// What a run leaves once it is closed; and of the slips that were out, how many there were, and the first.
#[derive(Drop)]
pub(super) struct Played {
    answers: Vec<Result<Answer, Refusal>>,
    fills: Vec<Fill>,
    pub(super) slips_out: usize,
    pub(super) first_out: Option<SlipOut>,
    pub(super) end: Result<(), AllocError>,
}

impl Played {
    // The answers and the fills are these, in order.
    pub(super) fn compare(
        &self,
        rt: &impl Abort,
        said: &[Result<Answer, Refusal>],
        fills: &[Fill],
    ) -> Result<(), Fail> {
        assert_eq!(rt; self.answers.as_slice(), said);
        assert_eq!(rt; self.fills.as_slice(), fills);
        Ok(())
    }
}

// Runs a list of calls, and closes the run.
pub(super) fn play(heap: Global, calls: &[Call<QuoteUpdate>]) -> Result<Played, Fail> {
    let mut quotes = ScanTable::new();
    let mut list = [BLANK; 256];
    let outcome = run(heap, &mut quotes, &mut list, calls)?;
    let slips = outcome.venue.parts().1;
    let slips_out = slips.len();
    let first_out = slips.first().map(|slip| SlipOut {
        number: slip.number(),
        shares: slip.shares(),
    });
    let ClosedRun {
        book: _,
        answers,
        fills,
        end,
    } = outcome.close();
    Ok(Played {
        answers,
        fills,
        slips_out,
        first_out,
        end,
    })
}
