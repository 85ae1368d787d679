//! A day: a venue, its quotes, and what was answered.

ghost use Rattle.std.specs.Prelude.{◌≡◌, ◌≤◌, [], ◌∷◌, length, IfOk, OnOk};
ghost use Rattle.day_words.specs.declared.line.Line.TheVariants.{Route, Identify};
ghost use Rattle.day_words.specs.Spelling.{read_line};
ghost use Rattle.dayfile.specs.Day.{calls_lines, day_calls_from, day_lines_from, day_start, identifier_number, line_answers, line_calls, read_answers, read_calls};
ghost use Rattle.dayfile.specs.Doing.{day_state, Does};
ghost use Rattle.dayfile.specs.Files.{lines_left};

use crate::places::no_fills;
use crate::writing::{numbered, put_fault, put_line, put_refusal, put_told};
use book::answers::Identifier;
use day_answers::answer::Code;
use day_lines::reader::Reader;
use day_words::line::{FILL_PLACES, Line};
use day_words::reading::read_line;
use stacks::{VenueQuotes, venue_quotes};
use std::alloc::{AllocError, Global};
use terms::calls::Call;
use terms::market::QuoteCall;
use terms::orders::Fill;
use terms::refusals::Refusal;
use venue::venue::Venue;

/// A venue with its quotes and its fill list, and the answers that are written.
pub(crate) struct Day {
    venue: Venue,
    quotes: VenueQuotes,
    fills: [Fill; FILL_PLACES],
    out: Vec<u8>,
}

// The number that stands for the liquidity identifier in what is written out.
fn identifier_number(identifier: Identifier) -> u32
    ensures { result ≡ identifier_number identifier }
{
    match identifier {
        Identifier::Neither => 0,
        Identifier::Buys => 1,
        Identifier::Sells => 2,
        Identifier::Both => 3,
    }
}

impl Day {
    /// An empty book and no quotes told, and the bytes after which the answers are to be written.
    pub(crate) fn new(heap: Global, out: Vec<u8>) -> Result<Self, AllocError>
        ensures { IfOk result (λ d. (day_state d ≡ day_start) × (d.out ≡ out)) }
    {
        let venue = Venue::new(heap)?;
        Ok(Day {
            venue,
            quotes: venue_quotes(),
            fills: no_fills(),
            out,
        })
    }

    // Makes a call, and writes what it is answered.
    fn answer_call(&mut self, line: u32, call: Call<QuoteCall>) -> Result<(), AllocError>
        ensures { OnOk result (Does self.old self.new (call ∷ []) (calls_lines line (day_state self.old) (call ∷ []))) }
    {
        let answer = self.venue.call(&mut self.quotes, &mut self.fills, call);
        put_told(&mut self.out, line, call, answer, &self.fills)
    }

    // Draws a slip and returns it, with so many shares executed away.
    fn answer_slip(&mut self, line: u32, number: u32, away: u32) -> Result<(), AllocError>
        ensures { OnOk result (Does self.old self.new (line_calls (day_state self.old) (Route number away)) (line_answers (day_state self.old) line (Route number away))) }
    {
        match self.venue.parts().0.waiting_shares(number) {
            None => self.answer_call(line, Call::Draw { number }),
            Some(shares) if shares < away => {
                put_refusal(&mut self.out, line, Refusal::MoreThanSlip)
            }
            Some(shares) => {
                self.answer_call(line, Call::Draw { number })?;
                self.answer_call(
                    line,
                    Call::Return {
                        number,
                        shares,
                        away,
                    },
                )
            }
        }
    }

    // Writes the liquidity identifier.
    fn answer_identifier(&mut self, line: u32) -> Result<(), AllocError>
        ensures { OnOk result (Does self.old self.new [] (line_answers (day_state self.old) line Identify)) }
    {
        let identifier = self.venue.parts().0.identifier(&self.quotes);
        put_line(
            &mut self.out,
            numbered(line, Code::Identifier, identifier_number(identifier)),
        )
    }

    // Makes the calls of a line, and writes what they are answered; of a line with a fault, the fault.
    fn answer_line(&mut self, line: u32, bytes: &[u8]) -> Result<(), AllocError>
        ensures { OnOk result (Does self.old self.new (read_calls (day_state self.old) (read_line bytes.now)) (read_answers (day_state self.old) line (read_line bytes.now))) }
    {
        match read_line(bytes) {
            Ok(Line::Call(call)) => self.answer_call(line, call),
            Ok(Line::Route { number, away }) => self.answer_slip(line, number, away),
            Ok(Line::Identify) => self.answer_identifier(line),
            Err(fault) => put_fault(&mut self.out, line, fault),
        }
    }

    /// Makes the calls of the lines after the header line, one after another, and writes what they are answered.
    pub(crate) fn answer_lines(&mut self, mut reader: Reader) -> Result<(), AllocError>
        requires { length (lines_left reader) ≤ 65536 }
        ensures { OnOk result (Does self.old self.new (day_calls_from (day_state self.old) (lines_left reader.entry)) (day_lines_from (day_state self.old) 2 (lines_left reader.entry))) }
    {
        let mut line: u32 = 2;
        while let Some(bytes) = reader.next_line() {
            self.answer_line(line, bytes)?;
            line += 1;
        }
        Ok(())
    }

    /// Takes the day apart: every slip that is out is given back, and the answers remain.
    pub(crate) fn close(self) -> Vec<u8>
        ensures { result ≡ self.out }
    {
        // Form: each field by name, since with `..` the day itself would be let go.
        let Day {
            venue,
            quotes: _quotes,
            fills: _fills,
            out,
        } = self;
        let _ = venue.close();
        out
    }
}
