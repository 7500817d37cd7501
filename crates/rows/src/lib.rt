// Table rows as bytes: decimal numbers with one space between them, and a line feed at the end.
#![tactic(auto)]

ghost use Rattle.std.specs.Prelude.{◌≡◌, ◌+◌, ◌^◌, ◌≤◌, length, MatchOption};
ghost use Rattle.std.specs.Fmt.{signed_decimal};
ghost use Rattle.buffer.specs.Cursor.{rest, Appends};
ghost use Rattle.rows.specs.Rows.{row_bytes, spaced, RowWritten};

use buffer::Cursor;
use itoa::Buffer;

// Writes the row of `fields` to the start of `buffer`, and answers how many bytes it has. A buffer that is too short gets
// nothing of it.
pub fn write_row(fields: &[i64], buffer: &mut [u8]) -> Option<usize>
    ensures { RowWritten fields.now buffer.old buffer.new result }
{
    let len = row_len(fields)?;
    if buffer.len() < len {
        return None;
    }
    put_row(&mut Cursor::new(buffer), fields);
    Some(len)
}

// How many bytes the row has, or none where a `usize` cannot count them. Each number takes one byte more than its text: for
// the space or the line feed after it.
fn row_len(fields: &[i64]) -> Option<usize>
    ensures { MatchOption result (2 ^ 64 ≤ length (row_bytes fields.now)) (λ n. n ≡ length (row_bytes fields.now)) }
{
    let mut text = Buffer::new();
    let mut len: usize = 0;
    for &z in fields {
        len = len.checked_add(text.format(z).len() + 1)?;
    }
    Some(len.max(1))
}

fn put_row(row: &mut Cursor, fields: &[i64])
    requires { length (row_bytes fields.now) ≤ length (rest row.old) }
    ensures { Appends (row_bytes fields.now) row.old row.new }
{
    if let [first, others @ ..] = fields {
        put_number(row, *first);
        put_spaced(row, others);
    }
    row.push(b'\n');
}

// A space before each number.
fn put_spaced(row: &mut Cursor, numbers: &[i64])
    requires { length (spaced numbers.now) ≤ length (rest row.old) }
    ensures { Appends (spaced numbers.now) row.old row.new }
{
    for &z in numbers {
        row.push(b' ');
        put_number(row, z);
    }
}

fn put_number(row: &mut Cursor, z: i64)
    requires { length (signed_decimal z) ≤ length (rest row.old) }
    ensures { Appends (signed_decimal z) row.old row.new }
{
    let mut text = Buffer::new();
    row.extend_from_slice(text.format(z).as_bytes());
}

#[cfg(test)]
mod tests;
