//! What a field says, as its call asks.

ghost use Rattle.std.specs.Prelude.{◌≡◌};
ghost use Rattle.day_lines.specs.Fields.{bytes_of, InItsCase};
ghost use Rattle.day_lines.specs.Lines.{number_of};
ghost use Rattle.terms.specs.declared.market.Side.TheVariants.{Buy};
ghost use Rattle.terms.specs.declared.orders.OrderKind.TheVariants.{Rpi};
ghost use Rattle.terms.specs.declared.orders.RetailType.TheVariants.{One};
ghost use Rattle.terms.specs.declared.orders.PhaseEvent.TheVariants.{Opening};
ghost use Rattle.day_words.specs.Spelling.{number_in, letter_else, letter_in, side_letters, kind_letters, retail_letters, phase_letters};
ghost use Rattle.day_words.specs.Spelling.Use.{Unused, Number, MayBeBlank};
ghost use Rattle.day_words.specs.Reads.{Says, SaysByte};

use crate::fault::{Fault, FaultKind};
use day_lines::fields::{Field, Placed};
use day_lines::number::number;
use terms::market::Side;
use terms::orders::{OrderKind, PhaseEvent, RetailType};

// Form: functions and no methods, since the type of a field is another crate's.

// A fault of this field.
pub(crate) fn fault_at(field: &Placed, kind: FaultKind) -> Fault
    ensures { result ≡ record { kind = kind; place = field.now.place } }
{
    Fault {
        kind,
        place: field.place,
    }
}

// Nothing, in a field that is not used.
pub(crate) fn nothing_in(field: &Placed) -> Result<(), Fault>
    requires { InItsCase field.now.field }
    ensures { Says Unused (bytes_of field.now.field) field.now.place tt result }
{
    match field.field {
        Field::Blank => Ok(()),
        _ => Err(fault_at(field, FaultKind::Blank)),
    }
}

// The number in a field.
pub(crate) fn number_in(field: &Placed) -> Result<u32, Fault>
    requires { InItsCase field.now.field }
    ensures { Says Number (bytes_of field.now.field) field.now.place (number_in (bytes_of field.now.field)) result }
{
    match field.field {
        Field::Blank => Err(fault_at(field, FaultKind::Blank)),
        Field::Letter(byte) if byte.is_ascii_digit() => Ok(u32::from(*byte - b'0')),
        Field::Digits(digits) => Ok(number(digits).unwrap()),
        _ => Err(fault_at(field, FaultKind::NotDigits)),
    }
}

// The number in a field that may be blank.
pub(crate) fn optional_number_in(field: &Placed) -> Result<Option<u32>, Fault>
    requires { InItsCase field.now.field }
    ensures { Says MayBeBlank (bytes_of field.now.field) field.now.place (number_of (bytes_of field.now.field)) result }
{
    match field.field {
        Field::Blank => Ok(None),
        _ => number_in(field).map(Some),
    }
}

// The byte of a field that is a letter.
pub(crate) fn letter_in(field: &Placed) -> Result<u8, Fault>
    requires { InItsCase field.now.field }
    ensures { SaysByte (bytes_of field.now.field) field.now.place result }
{
    match field.field {
        Field::Blank => Err(fault_at(field, FaultKind::Blank)),
        Field::Letter(byte) => Ok(*byte),
        _ => Err(fault_at(field, FaultKind::UnknownLetter)),
    }
}

// The side that the letter in a field stands for.
pub(crate) fn side_in(field: &Placed) -> Result<Side, Fault>
    requires { InItsCase field.now.field }
    ensures { Says (letter_in side_letters) (bytes_of field.now.field) field.now.place (letter_else Buy side_letters (bytes_of field.now.field)) result }
{
    match letter_in(field)? as char {
        'B' => Ok(Side::Buy),
        'S' => Ok(Side::Sell),
        _ => Err(fault_at(field, FaultKind::UnknownLetter)),
    }
}

// The kind of an order that rests, by its letter.
pub(crate) fn kind_in(field: &Placed) -> Result<OrderKind, Fault>
    requires { InItsCase field.now.field }
    ensures { Says (letter_in kind_letters) (bytes_of field.now.field) field.now.place (letter_else Rpi kind_letters (bytes_of field.now.field)) result }
{
    match letter_in(field)? as char {
        'R' => Ok(OrderKind::Rpi),
        'H' => Ok(OrderKind::Hidden),
        'D' => Ok(OrderKind::Displayed),
        _ => Err(fault_at(field, FaultKind::UnknownLetter)),
    }
}

// The type of a Retail Order, by its letter.
pub(crate) fn retail_type_in(field: &Placed) -> Result<RetailType, Fault>
    requires { InItsCase field.now.field }
    ensures { Says (letter_in retail_letters) (bytes_of field.now.field) field.now.place (letter_else One retail_letters (bytes_of field.now.field)) result }
{
    match letter_in(field)? as char {
        '1' => Ok(RetailType::One),
        '2' => Ok(RetailType::Two),
        '3' => Ok(RetailType::TwoRoutable),
        _ => Err(fault_at(field, FaultKind::UnknownLetter)),
    }
}

// What changes the phase, by its letter.
pub(crate) fn phase_event_in(field: &Placed) -> Result<PhaseEvent, Fault>
    requires { InItsCase field.now.field }
    ensures { Says (letter_in phase_letters) (bytes_of field.now.field) field.now.place (letter_else Opening phase_letters (bytes_of field.now.field)) result }
{
    match letter_in(field)? as char {
        'O' => Ok(PhaseEvent::Opening),
        'H' => Ok(PhaseEvent::Halting),
        'C' => Ok(PhaseEvent::Closing),
        _ => Err(fault_at(field, FaultKind::UnknownLetter)),
    }
}
