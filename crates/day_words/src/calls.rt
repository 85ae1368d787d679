//! What a line says by its call letter: its fields from the left, and the first that is wrong.

ghost use Rattle.std.specs.Prelude.{◌≡◌, drop};
ghost use Rattle.day_words.specs.Spelling.{read_as, uses, who};
ghost use Rattle.day_words.specs.Spelling.Form.{Entry, Cancellation, RetailEntry, Telling, PhaseChange, Approval, Withdrawal, Exception, Lifting, Routing, Identifier};
ghost use Rattle.day_words.specs.Reads.{texts, stands, InTheirCases, SaysOf};

use crate::fault::Fault;
use crate::field::{
    kind_in, nothing_in, number_in, optional_number_in, phase_event_in, retail_type_in, side_in,
};
use crate::line::{FILL_PLACES, Line};
use day_lines::fields::Fields;
use terms::calls::Call;
use terms::market::{QuoteCall, QuoteUpdate};
use terms::orders::{NewOrder, RetailOrder};

// A member enters an order.
pub(crate) fn enter(fields: &Fields) -> Result<Line, Fault>
    requires { InTheirCases fields.now }
    ensures { result ≡ read_as Entry (texts fields.now) (stands fields.now) }
{
    let member = number_in(&fields.who)?;
    let side = side_in(&fields.side)?;
    let kind = kind_in(&fields.kind)?;
    let limit = number_in(&fields.price)?;
    let offset = optional_number_in(&fields.offset)?;
    let shares = number_in(&fields.shares)?;
    nothing_in(&fields.order)?;
    Ok(Line::Call(Call::Enter(NewOrder {
        member,
        side,
        kind,
        limit,
        offset,
        shares,
    })))
}

// A member cancels an order.
pub(crate) fn cancel(fields: &Fields) -> Result<Line, Fault>
    requires { InTheirCases fields.now }
    ensures { result ≡ read_as Cancellation (texts fields.now) (stands fields.now) }
{
    let member = number_in(&fields.who)?;
    nothing_in(&fields.side)?;
    nothing_in(&fields.kind)?;
    nothing_in(&fields.price)?;
    nothing_in(&fields.offset)?;
    nothing_in(&fields.shares)?;
    let number = number_in(&fields.order)?;
    Ok(Line::Call(Call::Cancel { member, number }))
}

// A member sends a Retail Order.
pub(crate) fn send_retail(fields: &Fields) -> Result<Line, Fault>
    requires { InTheirCases fields.now }
    ensures { result ≡ read_as RetailEntry (texts fields.now) (stands fields.now) }
{
    let member = number_in(&fields.who)?;
    let side = side_in(&fields.side)?;
    let kind = retail_type_in(&fields.kind)?;
    let limit = number_in(&fields.price)?;
    nothing_in(&fields.offset)?;
    let shares = number_in(&fields.shares)?;
    nothing_in(&fields.order)?;
    Ok(Line::Call(Call::Retail {
        order: RetailOrder {
            member,
            side,
            kind,
            limit,
            shares,
        },
        places: FILL_PLACES,
    }))
}

// A market centre is told to quote; a blank price is 0.
pub(crate) fn tell(fields: &Fields) -> Result<Line, Fault>
    requires { InTheirCases fields.now }
    ensures { result ≡ read_as Telling (texts fields.now) (stands fields.now) }
{
    let centre = number_in(&fields.who)?;
    let side = side_in(&fields.side)?;
    nothing_in(&fields.kind)?;
    let price = optional_number_in(&fields.price)?.unwrap_or(0);
    nothing_in(&fields.offset)?;
    let size = number_in(&fields.shares)?;
    nothing_in(&fields.order)?;
    Ok(Line::Call(Call::Quotes(QuoteCall::Tell(QuoteUpdate {
        centre,
        side,
        price,
        size,
    }))))
}

// The phase of the day changes.
pub(crate) fn change_phase(fields: &Fields) -> Result<Line, Fault>
    requires { InTheirCases fields.now }
    ensures { result ≡ read_as PhaseChange (texts fields.now) (stands fields.now) }
{
    nothing_in(&fields.who)?;
    nothing_in(&fields.side)?;
    let event = phase_event_in(&fields.kind)?;
    nothing_in(&fields.price)?;
    nothing_in(&fields.offset)?;
    nothing_in(&fields.shares)?;
    nothing_in(&fields.order)?;
    Ok(Line::Call(Call::Move(event)))
}

// The number of a member or of a centre, and nothing after it.
fn only_who(fields: &Fields) -> Result<u32, Fault>
    requires { InTheirCases fields.now }
    ensures { SaysOf (uses Approval) (drop 1 (texts fields.now)) (drop 1 (stands fields.now)) (who (texts fields.now)) result }
{
    let number = number_in(&fields.who)?;
    nothing_in(&fields.side)?;
    nothing_in(&fields.kind)?;
    nothing_in(&fields.price)?;
    nothing_in(&fields.offset)?;
    nothing_in(&fields.shares)?;
    nothing_in(&fields.order)?;
    Ok(number)
}

// A member is approved.
pub(crate) fn approve(fields: &Fields) -> Result<Line, Fault>
    requires { InTheirCases fields.now }
    ensures { result ≡ read_as Approval (texts fields.now) (stands fields.now) }
{
    let member = only_who(fields)?;
    Ok(Line::Call(Call::Approve { member }))
}

// The approval of a member ends.
pub(crate) fn withdraw(fields: &Fields) -> Result<Line, Fault>
    requires { InTheirCases fields.now }
    ensures { result ≡ read_as Withdrawal (texts fields.now) (stands fields.now) }
{
    let member = only_who(fields)?;
    Ok(Line::Call(Call::Withdraw { member }))
}

// A market centre comes under an exception.
pub(crate) fn declare(fields: &Fields) -> Result<Line, Fault>
    requires { InTheirCases fields.now }
    ensures { result ≡ read_as Exception (texts fields.now) (stands fields.now) }
{
    let centre = only_who(fields)?;
    Ok(Line::Call(Call::Quotes(QuoteCall::Declare(centre))))
}

// The exception of a market centre ends.
pub(crate) fn lift(fields: &Fields) -> Result<Line, Fault>
    requires { InTheirCases fields.now }
    ensures { result ≡ read_as Lifting (texts fields.now) (stands fields.now) }
{
    let centre = only_who(fields)?;
    Ok(Line::Call(Call::Quotes(QuoteCall::Lift(centre))))
}

// A slip is drawn, and returned with the shares executed away.
pub(crate) fn route(fields: &Fields) -> Result<Line, Fault>
    requires { InTheirCases fields.now }
    ensures { result ≡ read_as Routing (texts fields.now) (stands fields.now) }
{
    nothing_in(&fields.who)?;
    nothing_in(&fields.side)?;
    nothing_in(&fields.kind)?;
    nothing_in(&fields.price)?;
    nothing_in(&fields.offset)?;
    let away = number_in(&fields.shares)?;
    let number = number_in(&fields.order)?;
    Ok(Line::Route { number, away })
}

// The liquidity identifier is asked for.
pub(crate) fn identify(fields: &Fields) -> Result<Line, Fault>
    requires { InTheirCases fields.now }
    ensures { result ≡ read_as Identifier (texts fields.now) (stands fields.now) }
{
    nothing_in(&fields.who)?;
    nothing_in(&fields.side)?;
    nothing_in(&fields.kind)?;
    nothing_in(&fields.price)?;
    nothing_in(&fields.offset)?;
    nothing_in(&fields.shares)?;
    nothing_in(&fields.order)?;
    Ok(Line::Identify)
}
