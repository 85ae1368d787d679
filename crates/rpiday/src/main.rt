//! Reads a day file on the standard input, and writes its answers on the standard output.
#![tactic(auto)]

ghost use Rattle.std.specs.Prelude.{◌≡◌, IfOk, IfSome, OnOk, take, vec_items};
ghost use Rattle.std.specs.Io.KnownBytes.{Appends};
ghost use Rattle.dayfile.specs.Day.{day_bytes};

use dayfile::answering::{MAX_FILE, answer_day};
use std::alloc::Global;
use std::io::{self, Read, Write};

// One byte more than a file has: with it a file is too long, whatever stands after it.
const MOST_READ: u64 = MAX_FILE as u64 + 1;

// Reads a file, and no more of it than shows that it is too long.
fn read_file<R: Read>(heap: Global, reader: R) -> io::Result<Vec<u8>>
where
    R: Drop,
    ensures { IfOk result (λ read. IfSome (R.remaining reader) (λ text. vec_items read ≡ take 65_537 text)) }
{
    let mut read = Vec::new(heap);
    reader.take(MOST_READ).read_to_end(&mut read)?;
    Ok(read)
}

// Reads a file, and writes its answers.
fn answer<R: Read, W: Write>(heap: Global, reader: R, writer: &mut W) -> anyhow::Result<()>
where
    R: Drop,
    ensures { OnOk result (IfSome (R.remaining reader) (λ text. Appends (W.contents writer.old) (W.contents writer.new) (day_bytes text))) }
{
    let read = read_file(heap, reader)?;
    let answers = answer_day(heap, &read)?;
    writer.write_all(&answers)?;
    Ok(())
}

fn main(rt: HostRuntime) -> anyhow::Result<()> {
    answer(rt.alloc(), rt.reader(), &mut io::writer(&rt))
}
