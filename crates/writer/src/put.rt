// The lines of a text, each after what is written so far. They are public for `write`, and ask for room.
ghost use Rattle.std.specs.Prelude.{◌≡◌, ℕ, ◌+◌, ◌*◌, ◌^◌, ◌<◌, ◌≤◌, [], ◌∷◌, ◌++◌, length, sum, slice_index_or};
ghost use Rattle.buffer.specs.Cursor.{rest, Appends};
ghost use Rattle.hexa.specs.Hex.{hexes};
ghost use Rattle.sheet.specs.Patches.{unit_frame, tap_frame, blank_plug};
ghost use Rattle.wires.specs.Sources.{code_of};
ghost use Rattle.writer.specs.Lines.{full_line, unit_lines, tap_lines};
ghost use Rattle.writer.specs.Sizes.{unit_size, units_size, tap_size};

use buffer::Cursor;
use frames::widths::{INTEGRATOR, SERVO, TAP};
use hexa::put_figures;
use sheet::parts::{MakeFigures, Plug, UnitFigures};
use wires::tap::Input;

// How many bytes a frame takes: its letter, its digits and a line feed.
pub fn line_len<const N: usize>(widths: [usize; N]) -> usize
    requires { sum widths + 2 < 2 ^ 64 }
    ensures { result ≡ sum widths.entry + 2 }
{
    widths.iter().sum::<usize>() + 2
}

// A frame: its letter, its figures and a line feed.
pub fn put_line<const N: usize>(out: &mut Cursor, letter: u8, widths: [usize; N], values: [u32; N])
    requires { sum widths + 2 ≤ length (rest out.old) }
    ensures { Appends ((letter ∷ hexes widths.entry values.entry) ++ (10 ∷ [])) out.old out.new }
{
    out.push(letter);
    put_figures(out, widths, values);
    out.push(b'\n');
}

// The frame of one unit.
fn put_unit(out: &mut Cursor, unit: u8, figures: UnitFigures)
    requires { unit_size figures ≤ length (rest out.old) }
    ensures { Appends (full_line (unit_frame unit figures)) out.old out.new }
{
    let unit = u32::from(unit);
    let position = figures.position.cast_unsigned();
    let divisor = u32::from(figures.divisor);
    let sense = u32::from(u8::from(figures.sense));
    match figures.make {
        MakeFigures::Integrator { length, residue } => {
            let values = [unit, u32::from(length), position, residue, divisor, sense];
            put_line(out, b'I', INTEGRATOR, values);
        }
        MakeFigures::Servo { limit } => {
            put_line(out, b'S', SERVO, [unit, limit, position, divisor, sense]);
        }
    }
}

// The frames of the units, by their numbers.
pub fn put_units(out: &mut Cursor, units: &[UnitFigures])
    requires few { length units.now ≤ 64 }
    requires room { units_size units.now ≤ length (rest out.old) }
    ensures { Appends (unit_lines units.now (length units.now)) out.old out.new }
{
    for (u, &figures) in units.iter().enumerate() {
        put_unit(out, u as u8, figures);
    }
}

// The frame of one tap.
fn put_tap(out: &mut Cursor, plug: Plug)
    requires room { tap_size ≤ length (rest out.old) }
    requires small { code_of plug.tap.source ≤ 255 }
    ensures { Appends (full_line (tap_frame plug)) out.old out.new }
{
    let letter = match plug.input {
        Input::X => b'X',
        Input::Y => b'Y',
    };
    let unit = u32::from(plug.unit);
    let sign = u32::from(u8::from(plug.tap.sign));
    let source = u32::from(plug.tap.source.code());
    put_line(out, letter, TAP, [unit, sign, source]);
}

// The frames of the taps.
pub fn put_taps(out: &mut Cursor, taps: &[Plug])
    requires room { tap_size * length taps.now ≤ length (rest out.old) }
    requires small { (i : ℕ) → i < length taps.now → code_of (slice_index_or taps.now i blank_plug).tap.source ≤ 255 }
    ensures { Appends (tap_lines taps.now (length taps.now)) out.old out.new }
{
    for &plug in taps {
        put_tap(out, plug);
    }
}

// How many bytes the frames of the units take.
pub fn units_len(units: &[UnitFigures]) -> usize
    requires { length units.now ≤ 64 }
    ensures { result ≡ units_size units.now }
{
    units.iter().map(|&figures| unit_len(figures)).sum()
}

fn unit_len(figures: UnitFigures) -> usize
    ensures value { result ≡ unit_size figures }
    ensures bound { result ≤ sum INTEGRATOR + 2 }
{
    match figures.make {
        MakeFigures::Integrator { .. } => line_len(INTEGRATOR),
        MakeFigures::Servo { .. } => line_len(SERVO),
    }
}
