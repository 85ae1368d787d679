//! What a line says.

ghost use Rattle.std.specs.Prelude.{◌≡◌};
ghost use Rattle.day_words.specs.Spelling.{bad_line, read_fields, read_line};
ghost use Rattle.day_words.specs.Reads.{texts, stands, InTheirCases};

use crate::calls::{
    approve, cancel, change_phase, declare, enter, identify, lift, route, send_retail, tell,
    withdraw,
};
use crate::fault::{Fault, FaultKind};
use crate::field::{fault_at, letter_in};
use crate::line::Line;
use day_lines::fields::{Fields, fields_of};

/// The fault of a line that is too long or has not eight fields.
pub const BAD_LINE: Fault = Fault {
    kind: FaultKind::BadLine,
    place: 0,
};

// What the eight fields of a line say.
fn read_fields(fields: &Fields) -> Result<Line, Fault>
    requires { InTheirCases fields.now }
    ensures { result ≡ read_fields (texts fields.now) (stands fields.now) }
{
    match letter_in(&fields.call)? as char {
        'E' => enter(fields),
        'C' => cancel(fields),
        'R' => send_retail(fields),
        'T' => tell(fields),
        'P' => change_phase(fields),
        'A' => approve(fields),
        'W' => withdraw(fields),
        'X' => declare(fields),
        'L' => lift(fields),
        'S' => route(fields),
        'I' => identify(fields),
        _ => Err(fault_at(&fields.call, FaultKind::UnknownLetter)),
    }
}

/// The call of a line, without the byte that ends it, or the fault of its first wrong field.
pub fn read_line(line: &[u8]) -> Result<Line, Fault>
    ensures { result ≡ read_line line.now }
{
    let fields = fields_of(line).ok_or(BAD_LINE)?;
    read_fields(&fields)
}
