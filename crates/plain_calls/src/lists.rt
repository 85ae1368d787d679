//! Lists that are written from the front.

ghost use Rattle.std.specs.Prelude.{◌≡◌, ◌+◌, ◌≤◌, ◌++◌, List, length, map};
ghost use Rattle.plain_calls.specs.declared.answers.PlainFill.{PlainFill as Given};
ghost use Rattle.plain_calls.specs.Plain.{over, plain_fill};

use crate::answers::{PlainFill, plain_fill};
use terms::orders::Fill;

/// Writes fills after the first so many places of a list.
pub(crate) fn put_fills(out: &mut [PlainFill], at: usize, fills: &[Fill])
    requires { at + length fills.now ≤ length out.old }
    ensures { (front list : List Given) → out.old ≡ over front list → length front ≡ at → out.new ≡ over (front ++ map plain_fill fills.now) list }
{
    for (i, fill) in fills.iter().enumerate() {
        out[at + i] = plain_fill(*fill);
    }
}
