// The whole text.
ghost use Rattle.std.specs.Prelude.{◌≡◌, ◌≤◌, length};
ghost use Rattle.buffer.specs.Cursor.{rest, Appends};
ghost use Rattle.sheet.specs.Texts.{written};
ghost use Rattle.writer.specs.Written.{TextWritten};

use crate::put::{line_len, put_line, put_taps, put_units, units_len};
use buffer::Cursor;
use frames::widths::{COUNT, LAST, TAP};
use sheet::sheet::Sheet;
use unit::refusal::Refusal;

// Writes the text of the sheet to the start of the buffer, and answers how many bytes it has. A buffer that is too short gets
// nothing of it.
pub fn write(sheet: &Sheet, buffer: &mut [u8]) -> Result<usize, Refusal>
    ensures { TextWritten sheet.now buffer.old buffer.new result }
{
    let len = text_len(sheet);
    if buffer.len() < len {
        return Err(Refusal::BufferTooShort);
    }
    put_text(&mut Cursor::new(buffer), sheet);
    Ok(len)
}

// How many bytes the text has.
fn text_len(sheet: &Sheet) -> usize
    ensures { result ≡ length (written sheet.now) }
{
    line_len(COUNT) + units_len(sheet.units()) + line_len(TAP) * sheet.taps().len() + line_len(LAST)
}

fn put_text(out: &mut Cursor, sheet: &Sheet)
    requires { length (written sheet.now) ≤ length (rest out.old) }
    ensures { Appends (written sheet.now) out.old out.new }
{
    put_line(out, b'P', COUNT, [u32::from(sheet.count())]);
    put_units(out, sheet.units());
    put_taps(out, sheet.taps());
    put_line(out, b'G', LAST, [sheet.ticks(), sheet.step()]);
}
