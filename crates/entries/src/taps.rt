// The lines of the taps. Digits and figures are taken by `let .. else`, each naming its refusal.
ghost use Rattle.std.specs.Prelude.{◌∷◌};
ghost use Rattle.frames.specs.Frames.{tap_letter};
ghost use Rattle.entries.specs.Entries.{TailAnswers};

use crate::figures::tap_figures;
use crate::latest::Latest;
use sheet::parts::Plug;
use unit::refusal::Refusal;
use wires::source::Source;
use wires::tap::{Input, Sign, Tap};

// What a line below the units says: a tap, which is then the latest, or the ticks and the step between rows.
#[derive(Clone, Copy, PartialEq, Eq, Debug)]
pub enum Tail {
    Tap(Plug, Latest),
    Last { ticks: u32, step: u32 },
}

// A tap, from the digits of its line: its unit is below the count and may have one more, and its sign and its source are there.
pub fn tap_entry(input: Input, digits: &[u8], count: u8, latest: Latest) -> Result<Tail, Refusal>
    ensures { TailAnswers count latest (tap_letter input ∷ digits.now) result }
{
    let Some((unit, sign, source)) = tap_figures(digits) else {
        return Err(Refusal::FrameDigits);
    };
    if unit >= count {
        return Err(Refusal::UnitOrder);
    }
    let Some(next) = latest.with(unit, input) else {
        return Err(Refusal::UnitOrder);
    };
    let Ok(sign) = Sign::try_from(sign) else {
        return Err(Refusal::FigureOutOfRange);
    };
    let Some(source) = Source::of(source, count) else {
        return Err(Refusal::NoSuchSource);
    };
    Ok(Tail::Tap(
        Plug {
            unit,
            input,
            tap: Tap { sign, source },
        },
        next,
    ))
}
