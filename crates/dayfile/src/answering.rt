//! The bytes of a day file, and the bytes of its answers.

ghost use Rattle.std.specs.Prelude.{IfOk, vec_items};
ghost use Rattle.dayfile.specs.DayLaws.{DayKept};
ghost use Rattle.dayfile.specs.Files.{Begun};

use crate::day::Day;
use crate::writing::put_fault;
use day_answers::bytes::put_head;
use day_lines::reader::Reader;
use day_words::fault::{Fault, FaultKind};
use std::alloc::{AllocError, Global};

/// The most bytes that a file has.
pub const MAX_FILE: usize = 65_536;

/// The first line of every file.
pub const NAMES: &[u8] = b"call,who,side,kind,price,offset,shares,ref";

// The lines after the header line, still to be read, or the fault of the file.
fn lines_behind_names<'a>(text: &'a [u8]) -> Result<Reader<'a>, FaultKind>
    ensures { Begun text.now result }
{
    if text.len() > MAX_FILE {
        return Err(FaultKind::TooLong);
    }
    let mut reader = Reader::new(text);
    match reader.next_line() {
        Some(first) if first == NAMES => Ok(reader),
        _ => Err(FaultKind::WrongNames),
    }
}

/// The answers to a day file: what its lines are answered, one after another, from an empty book and no quotes. Where
/// there is no memory for them, every slip is given back, and nothing is answered.
pub fn answer_day(heap: Global, text: &[u8]) -> Result<Vec<u8>, AllocError>
    ensures { IfOk result (λ answers. DayKept text.now (vec_items answers)) }
{
    let mut out = Vec::new(heap);
    put_head(&mut out)?;
    match lines_behind_names(text) {
        Ok(reader) => {
            let mut day = Day::new(heap, out)?;
            let answered = day.answer_lines(reader);
            let out = day.close();
            answered?;
            Ok(out)
        }
        Err(kind) => {
            put_fault(&mut out, 1, Fault { kind, place: 0 })?;
            Ok(out)
        }
    }
}
