//! A call as plain numbers, and what it means.

ghost use Rattle.std.specs.Prelude.{◌≡◌};
ghost use Rattle.day_words.specs.Spelling.{named, side_letters, kind_letters, retail_letters, phase_letters};
ghost use Rattle.plain_calls.specs.Meant.{meant, meant_as, offset_of};
ghost use Rattle.plain_calls.specs.Meant.Form.{Entry, RetailEntry, PhaseChange, Telling};

use day_words::line::FILL_PLACES;
use terms::calls::Call;
use terms::market::{QuoteCall, QuoteUpdate, Side};
use terms::orders::{NewOrder, OrderKind, PhaseEvent, RetailOrder, RetailType};

/// A call: its letter, those of its side and kind, and its numbers. A field that the call does not use is not read.
#[repr(C)]
#[derive(Clone, Copy, PartialEq, Eq, Debug)]
pub struct PlainCall {
    pub call: u8,
    pub side: u8,
    pub kind: u8,
    pub has_offset: bool,
    pub who: u32,
    pub price: u32,
    pub offset: u32,
    pub shares: u32,
    pub number: u32,
    pub away: u32,
}

// The side that a letter stands for.
fn side_of(letter: u8) -> Option<Side>
    ensures { result ≡ named side_letters letter }
{
    match letter as char {
        'B' => Some(Side::Buy),
        'S' => Some(Side::Sell),
        _ => None,
    }
}

// The kind of an order that rests, by its letter.
fn kind_of(letter: u8) -> Option<OrderKind>
    ensures { result ≡ named kind_letters letter }
{
    match letter as char {
        'R' => Some(OrderKind::Rpi),
        'H' => Some(OrderKind::Hidden),
        'D' => Some(OrderKind::Displayed),
        _ => None,
    }
}

// The type of a Retail Order, by its letter.
fn retail_type_of(letter: u8) -> Option<RetailType>
    ensures { result ≡ named retail_letters letter }
{
    match letter as char {
        '1' => Some(RetailType::One),
        '2' => Some(RetailType::Two),
        '3' => Some(RetailType::TwoRoutable),
        _ => None,
    }
}

// What changes the phase, by its letter.
fn phase_event_of(letter: u8) -> Option<PhaseEvent>
    ensures { result ≡ named phase_letters letter }
{
    match letter as char {
        'O' => Some(PhaseEvent::Opening),
        'H' => Some(PhaseEvent::Halting),
        'C' => Some(PhaseEvent::Closing),
        _ => None,
    }
}

impl PlainCall {
    // An order that asks to rest.
    fn entry(self) -> Option<Call<QuoteCall>>
        ensures { result ≡ meant_as Entry self }
    {
        let side = side_of(self.side)?;
        let kind = kind_of(self.kind)?;
        Some(Call::Enter(NewOrder {
            member: self.who,
            side,
            kind,
            limit: self.price,
            offset: self.has_offset.then_some(self.offset),
            shares: self.shares,
        }))
    }

    // A Retail Order; every place of the fill list is lent to it.
    fn retail(self) -> Option<Call<QuoteCall>>
        ensures { result ≡ meant_as RetailEntry self }
    {
        let side = side_of(self.side)?;
        let kind = retail_type_of(self.kind)?;
        Some(Call::Retail {
            order: RetailOrder {
                member: self.who,
                side,
                kind,
                limit: self.price,
                shares: self.shares,
            },
            places: FILL_PLACES,
        })
    }

    // What a market centre quotes from now on.
    fn tell(self) -> Option<Call<QuoteCall>>
        ensures { result ≡ meant_as Telling self }
    {
        let side = side_of(self.side)?;
        Some(Call::Quotes(QuoteCall::Tell(QuoteUpdate {
            centre: self.who,
            side,
            price: self.price,
            size: self.shares,
        })))
    }

    // A change of the phase.
    fn phase_change(self) -> Option<Call<QuoteCall>>
        ensures { result ≡ meant_as PhaseChange self }
    {
        phase_event_of(self.kind).map(Call::Move)
    }

    /// The call that is meant, if each letter that it uses stands for something.
    pub fn meant(self) -> Option<Call<QuoteCall>>
        ensures { result ≡ meant self }
    {
        match self.call as char {
            'E' => self.entry(),
            'C' => Some(Call::Cancel {
                member: self.who,
                number: self.number,
            }),
            'R' => self.retail(),
            'D' => Some(Call::Draw {
                number: self.number,
            }),
            'B' => Some(Call::Return {
                number: self.number,
                shares: self.shares,
                away: self.away,
            }),
            'P' => self.phase_change(),
            'A' => Some(Call::Approve { member: self.who }),
            'W' => Some(Call::Withdraw { member: self.who }),
            'T' => self.tell(),
            'X' => Some(Call::Quotes(QuoteCall::Declare(self.who))),
            'L' => Some(Call::Quotes(QuoteCall::Lift(self.who))),
            _ => None,
        }
    }
}
