// Capital hexadecimal: figures of given widths out of digits, and into a buffer. For the crates that know the widths of a frame:
// `figures` asks that none is above 8, and `put_figures` asks for room.
#![tactic(auto)]

ghost use Rattle.std.specs.Prelude.{◌≡◌, ◌/◌, ◌^◌, ◌<◌, ◌≤◌, length, MatchBool, sum, MatchOption};
ghost use Rattle.std.specs.List.{AllByRecursion};
ghost use Rattle.buffer.specs.Cursor.{rest, Appends};
ghost use Rattle.hexa.specs.Hex.{digit, hex, hexes, Digits, NoDigit, NoDigits, BadDigits, Writable};

use buffer::Cursor;

// The figures that the digits write, one for each width; none where there are too few or too many digits, or a byte is none.
pub fn figures<const N: usize>(digits: &[u8], widths: [usize; N]) -> Option<[u32; N]>
    requires { AllByRecursion (λ w. w ≤ 8) widths }
    ensures { MatchOption result (BadDigits (sum widths.entry) digits.now) (λ vs. Writable widths.entry vs × (digits.now ≡ hexes widths.entry vs)) }
{
    let mut values = [0; N];
    let mut left = digits;
    // by index: in a `zip` of `iter_mut` a proof knows only how many there are
    for (i, &width) in widths.iter().enumerate() {
        let (part, after) = left.split_at_checked(width)?;
        values[i] = number(part)?;
        left = after;
    }
    left.is_empty().then_some(values)
}

// Whether there are so many bytes and each is a digit.
pub fn are_digits(bytes: &[u8], count: usize) -> bool
    ensures { MatchBool result (Digits count bytes.now) (BadDigits count bytes.now) }
{
    bytes.len() == count && bytes.iter().all(|&b| digit_value(b).is_some())
}

// The number that at most eight digits write; none where a byte is no digit.
fn number(digits: &[u8]) -> Option<u32>
    requires { length digits.now ≤ 8 }
    ensures { MatchOption result (NoDigits digits.now) (λ v. (v < 16 ^ length digits.now) × (digits.now ≡ hex (length digits.now) v)) }
{
    let mut v = 0;
    for &d in digits {
        v = v * 16 + u32::from(digit_value(d)?);
    }
    Some(v)
}

fn digit_value(b: u8) -> Option<u8>
    ensures { MatchOption result (NoDigit b) (λ v. (v < 16) × (b ≡ digit v)) }
{
    match b {
        b'0'..=b'9' => Some(b - b'0'),
        b'A'..=b'F' => Some(b - b'A' + 10),
        _ => None,
    }
}

// Writes the figures, each with as many digits as its width says.
pub fn put_figures<const N: usize>(out: &mut Cursor, widths: [usize; N], values: [u32; N])
    requires { sum widths ≤ length (rest out.old) }
    ensures { Appends (hexes widths.entry values.entry) out.old out.new }
{
    for (&width, &value) in widths.iter().zip(&values) {
        put_hex(out, width, value);
    }
}

// The digits from the first one on.
fn put_hex(out: &mut Cursor, width: usize, value: u32)
    requires { width ≤ length (rest out.old) }
    ensures { Appends (hex width value) out.old out.new }
{
    for place in (0..width).rev() {
        out.push(digit_of((without_last(value, place) % 16) as u8));
    }
}

// The value without its last `digits` digits. No value has more than eight.
fn without_last(value: u32, digits: usize) -> u32
    ensures { result ≡ value / 16 ^ digits }
{
    if digits < 8 { value >> (4 * digits) } else { 0 }
}

fn digit_of(v: u8) -> u8
    requires { v < 16 }
    ensures { result ≡ digit v }
{
    if v < 10 { b'0' + v } else { b'A' + (v - 10) }
}
