// The phases of a text: the count, the units, and the taps down to the last frame. They are public for `read` and its contract, and
// ask that the reader of lines stands below lawful frames: below other ones in each phase, so that it is a clause and no type's fact.
ghost use Rattle.std.specs.Prelude.{◌≡◌, ℕ, ◌+◌, ◌<◌, ◌≤◌, [], length};
ghost use Rattle.sheet.specs.Patches.{unit_frames};
ghost use Rattle.unit.specs.declared.refusal.Refusal.TheVariants.{FrameOrder};
ghost use Rattle.reader.specs.Phases.{Reading, CountRead, UnitsRead, TapsRead};

use entries::latest::Latest;
use entries::tails::tail_entry;
use entries::taps::Tail;
use entries::units::{count_entry, unit_entry};
use fixedvec::FixedVec;
use lines::reader::LineReader;
use sheet::parts::{Plug, UnitFigures};
use unit::refusal::{Refusal, TextFault};

// How a text ends, below its units: the taps, and the figures of the last frame.
#[derive(Clone, Copy, PartialEq, Eq, Debug)]
pub struct Ending {
    pub plugs: FixedVec<Plug, 320>,
    pub ticks: u32,
    pub step: u32,
}

// A fault of the line that was read last, where so many are read.
pub fn wrong(read: usize, refusal: Refusal) -> TextFault
    requires { read < 65536 }
    ensures refusal { result.refusal ≡ «refusal» }
    ensures line { result.line ≡ read }
{
    TextFault {
        refusal,
        line: read as u16,
    }
}

// The text ends where a frame is still to come.
fn missing(lines: &LineReader) -> TextFault
    requires { lines.now.lines < 65535 }
    ensures refusal { result.refusal ≡ FrameOrder }
    ensures line { result.line ≡ lines.now.lines + 1 }
{
    wrong(lines.lines() + 1, Refusal::FrameOrder)
}

// The number of units, from the line at the top.
pub fn read_count(lines: &mut LineReader) -> Result<u8, TextFault>
    requires { Reading lines.old lines.old.text.now [] }
    ensures { CountRead lines.old.text.now result lines.new }
{
    let line = lines.next().ok_or(missing(lines))?;
    let read = lines.lines();
    count_entry(line).map_err(|refusal| wrong(read, refusal))
}

// The units, each from a line of its own.
pub fn read_units(lines: &mut LineReader, count: u8) -> Result<FixedVec<UnitFigures, 64>, TextFault>
    requires { Reading lines.old lines.old.text.now (unit_frames count [] 0) }
    ensures { UnitsRead lines.old.text.now count result lines.new }
{
    let mut units = FixedVec::new();
    // no index: `next` is the number that the unit must have
    for next in 0..count {
        let line = lines.next().ok_or(missing(lines))?;
        let read = lines.lines();
        let unit = unit_entry(line, next).map_err(|refusal| wrong(read, refusal))?;
        units.push(unit);
    }
    Ok(units)
}

// The taps of these units, and then the last frame.
pub fn read_taps(lines: &mut LineReader, units: &[UnitFigures]) -> Result<Ending, TextFault>
    requires { Reading lines.old lines.old.text.now (unit_frames (length units.now) units.now (length units.now)) }
    ensures { TapsRead lines.old.text.now units.now result lines.new }
{
    let count = units.len() as u8;
    let mut latest = Latest::start();
    let mut plugs = FixedVec::new();
    // no `for`, since the lines are asked how many were read, in the loop and after it
    while let Some(line) = lines.next() {
        let read = lines.lines();
        let tail = tail_entry(line, count, latest).map_err(|refusal| wrong(read, refusal))?;
        match tail {
            Tail::Last { ticks, step } => return Ok(Ending { plugs, ticks, step }),
            Tail::Tap(plug, next) => {
                plugs.push(plug);
                latest = next;
            }
        }
    }
    Err(missing(lines))
}
