// A whole text.
ghost use Rattle.frames.specs.Faults.{Extent};
ghost use Rattle.std.specs.Prelude.{MatchBool};
ghost use Rattle.reader.specs.Answers.{Parsed, ReadInto, OnlyAnswer, FirstFault};

use crate::phases::{Ending, read_count, read_taps, read_units, wrong};
use lines::reader::LineReader;
use sheet::sheet::Sheet;
use unit::refusal::{Refusal, TextFault};

// Reads a patch text into the sheet. A text is accepted exactly when it is the text of some sheet, and then it is that one; a refused
// text gives its first fault and leaves the sheet as it was.
pub fn read(text: &[u8], sheet: &mut Sheet) -> Result<(), TextFault>
    ensures read { ReadInto text.now sheet.old result sheet.new }
    ensures only { OnlyAnswer text.now result sheet.new }
    ensures first { FirstFault text.now result }
{
    *sheet = parsed(text)?;
    Ok(())
}

// The sheet of a text, or its first fault.
pub fn parsed(text: &[u8]) -> Result<Sheet, TextFault>
    ensures { Parsed text.now result }
{
    if !has_extent(text) {
        return Err(TextFault {
            refusal: Refusal::TextExtent,
            line: 0,
        });
    }
    let mut lines = LineReader::new(text);
    let count = read_count(&mut lines)?;
    let units = read_units(&mut lines, count)?;
    let Ending { plugs, ticks, step } = read_taps(&mut lines, units.as_slice())?;
    if lines.next().is_some() {
        return Err(wrong(lines.lines(), Refusal::FrameOrder));
    }
    Ok(Sheet::of_parts(units, plugs, ticks, step))
}

// Whether a text is not empty, not too long, and ends in a line feed.
fn has_extent(text: &[u8]) -> bool
    ensures { MatchBool result (Extent text.now) (Extent text.now → ⊥) }
{
    (1..=8192).contains(&text.len()) && text.ends_with(b"\n")
}
