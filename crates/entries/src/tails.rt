// The lines below those of the units: taps, and the last line. Digits and figures are taken by `let .. else`, each naming its refusal.
ghost use Rattle.std.specs.Prelude.{ℕ, ◌∷◌};
ghost use Rattle.entries.specs.Entries.{TailAnswers};
ghost use Rattle.entries.specs.declared.latest.Latest.{Latest};

use crate::figures::last_figures;
use crate::latest::Latest;
use crate::taps::{Tail, tap_entry};
use lines::frame::Frame;
use lines::reader::Part;
use unit::refusal::Refusal;
use wires::tap::Input;

// Rows are so many ticks apart at least.
const SHORTEST_STEP: u32 = 1;

// A line below those of the `count` units.
pub fn tail_entry(line: Part, count: u8, latest: Latest) -> Result<Tail, Refusal>
    ensures { TailAnswers count latest line.entry.bytes.now result }
{
    match Frame::try_from(line)? {
        Frame::X(digits) => tap_entry(Input::X, digits.bytes, count, latest),
        Frame::Y(digits) => tap_entry(Input::Y, digits.bytes, count, latest),
        Frame::Last(digits) => last_entry(digits.bytes),
        _ => Err(Refusal::FrameOrder),
    }
}

// The last line, whatever count and taps stand above it.
fn last_entry(digits: &[u8]) -> Result<Tail, Refusal>
    ensures { (count : ℕ) (latest : Latest) → TailAnswers count latest (71 ∷ digits.now) result }
{
    let Some((ticks, step)) = last_figures(digits) else {
        return Err(Refusal::FrameDigits);
    };
    if step < SHORTEST_STEP {
        return Err(Refusal::FigureOutOfRange);
    }
    Ok(Tail::Last { ticks, step })
}
