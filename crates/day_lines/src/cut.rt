//! One field of a line after another.

ghost use Rattle.std.specs.Prelude.{◌≡◌, ◌+◌, ◌≤◌, [], length, MatchOption};

use crate::bytes::first_place;
use crate::fields::{Field, Placed};

// A line, and the place from which its fields are still to be cut off, which passes its end with the last one.
#[derive(Drop)]
pub(crate) struct Cut<'a> {
    pub(crate) line: &'a [u8],
    pub(crate) at: usize,
    ghost short: { length line.now ≤ 120 },
    ghost within: { at ≤ length line.now + 1 },
}

impl<'a> Cut<'a> {
    ghost use Rattle.day_lines.specs.Cutting.{cells_left, CutsField};

    // The next field, or none where all are cut off.
    pub(crate) fn next_field(&mut self) -> Option<Placed<'a>>
        ensures field { MatchOption result (cells_left self.old ≡ []) (CutsField self.old self.new) }
        ensures line { self.new.line.now ≡ self.old.line.now }
    {
        if self.at > self.line.len() {
            return None;
        }
        let rest = &self.line[self.at..];
        let place = self.at as u32 + 1;
        let len = first_place(rest, b',');
        self.at += len + 1;
        Some(Placed {
            field: Field::of(&rest[..len]),
            place,
        })
    }
}
