//! The fields of a line.

ghost use Rattle.std.specs.Prelude.{◌≡◌, ◌↔◌, ◌≤◌, length, map, IsSome, IfSome};
ghost use Rattle.std.specs.List.{AllByRecursion as Each};
ghost use Rattle.day_lines.specs.Fields.{bytes_of, InItsCase, in_order};
ghost use Rattle.day_lines.specs.Lines.{cells, places};

use crate::cut::Cut;
use crate::number::number;

/// The most bytes that a line has.
pub const MAX_LINE: usize = 120;

/// What stands in a field, borrowed from the file.
#[derive(Clone, Copy)]
pub enum Field<'a> {
    /// Nothing.
    Blank,
    /// A single byte, whatever it is.
    Letter(&'a u8),
    /// Two to nine decimal digits.
    Digits(&'a [u8]),
    /// Two bytes or more that are no number of at most nine decimal digits.
    Other(&'a [u8]),
}

/// A field, and its place: one more than the number of bytes of the line that come before it. A blank field has one too.
#[derive(Clone, Copy)]
pub struct Placed<'a> {
    pub field: Field<'a>,
    pub place: u32,
}

/// The eight fields of a line, from the left.
#[derive(Clone, Copy)]
pub struct Fields<'a> {
    pub call: Placed<'a>,
    pub who: Placed<'a>,
    pub side: Placed<'a>,
    pub kind: Placed<'a>,
    pub price: Placed<'a>,
    pub offset: Placed<'a>,
    pub shares: Placed<'a>,
    /// The number that the file calls `ref`.
    pub order: Placed<'a>,
}

impl<'a> Field<'a> {
    // The field that these bytes are.
    pub(crate) fn of(bytes: &'a [u8]) -> Self
        ensures bytes { bytes_of result ≡ bytes.now }
        ensures in_case { InItsCase result }
    {
        match bytes {
            [] => Field::Blank,
            [letter] => Field::Letter(letter),
            _ if number(bytes).is_some() => Field::Digits(bytes),
            _ => Field::Other(bytes),
        }
    }
}

/// The fields of a line of at most 120 bytes, if they are eight.
pub fn fields_of(line: &[u8]) -> Option<Fields<'_>>
    ensures some { IsSome result ↔ ((length line.now ≤ 120) × (length (cells line.now) ≡ 8)) }
    ensures bytes { IfSome result (λ f. map (λ p. bytes_of p.field) (in_order f) ≡ cells line.now) }
    ensures places { IfSome result (λ f. map (λ p. p.place) (in_order f) ≡ places 1 (cells line.now)) }
    ensures in_case { IfSome result (λ f. Each (λ p. InItsCase p.field) (in_order f)) }
{
    if line.len() > MAX_LINE {
        return None;
    }
    let mut cut = Cut { line, at: 0 };
    let fields = Fields {
        call: cut.next_field()?,
        who: cut.next_field()?,
        side: cut.next_field()?,
        kind: cut.next_field()?,
        price: cut.next_field()?,
        offset: cut.next_field()?,
        shares: cut.next_field()?,
        order: cut.next_field()?,
    };
    match cut.next_field() {
        None => Some(fields),
        Some(_) => None,
    }
}
