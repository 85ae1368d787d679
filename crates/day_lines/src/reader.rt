//! The lines of a text, one after another.

ghost use Rattle.std.specs.Prelude.{◌≡◌, ◌≤◌, ◌↔◌, ◌∷◌, [], length, ◌==◌, IsNone, IfSome};
ghost use Rattle.std.specs.List.{after_first};
ghost use Rattle.day_lines.specs.Lines.{lines};

use crate::bytes::first_place;

/// A text, and the place from which its lines are still to be read.
#[derive(Drop)]
pub struct Reader<'a> {
    text: &'a [u8],
    at: usize,
    ghost within: { at ≤ length text.now },
}

impl<'a> Reader<'a> {
    ghost use Rattle.day_lines.specs.Reading.{rest_of};

    /// All lines of this text are still to be read.
    pub fn new(text: &'a [u8]) -> Self
        ensures text { result.text.now ≡ text.now }
        ensures rest { rest_of result ≡ text.now }
    {
        Reader { text, at: 0 }
    }

    /// The next line, without the byte that ends it, or none where nothing remains.
    pub fn next_line(&mut self) -> Option<&'a [u8]>
        ensures none { IsNone result ↔ (rest_of self.old ≡ []) }
        ensures line { IfSome result (λ line. lines (rest_of self.old) ≡ line.now ∷ lines (rest_of self.new)) }
        ensures rest { rest_of self.new ≡ after_first (λ b. b == 10) (rest_of self.old) }
        ensures text { self.new.text.now ≡ self.old.text.now }
    {
        let rest = &self.text[self.at..];
        if rest.is_empty() {
            return None;
        }
        let len = first_place(rest, b'\n');
        self.at += len.saturating_add(1).min(rest.len());
        Some(&rest[..len])
    }
}
