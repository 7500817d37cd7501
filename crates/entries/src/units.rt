// The line at the top, and the lines of the units. Digits and figures are taken by `let .. else`, each naming its refusal.
ghost use Rattle.sheet.specs.Patches.{make_frame};
ghost use Rattle.entries.specs.Entries.{CountEntry, UnitAnswers};
ghost use Rattle.entries.specs.Making.{UnitOf};

use crate::figures::{UnitFrame, count_figure, integrator_figures, servo_figures};
use layers::house::{house_integrator, house_servo};
use layers::turn::Sense;
use lines::frame::Frame;
use lines::reader::Part;
use sheet::parts::{MakeFigures, UnitFigures};
use unit::refusal::Refusal;

// A patch has so many units.
const FEWEST: u8 = 1;

const MOST: u8 = 64;

// The number of units, from the line at the top.
pub fn count_entry(line: Part) -> Result<u8, Refusal>
    ensures { CountEntry line.entry.bytes.now result }
{
    let Frame::Count(digits) = Frame::try_from(line)? else {
        return Err(Refusal::FrameOrder);
    };
    let Some(units) = count_figure(digits.bytes) else {
        return Err(Refusal::FrameDigits);
    };
    if !(FEWEST..=MOST).contains(&units) {
        return Err(Refusal::FigureOutOfRange);
    }
    Ok(units)
}

// The unit whose number is next, from its line.
pub fn unit_entry(line: Part, next: u8) -> Result<UnitFigures, Refusal>
    ensures { UnitAnswers next line.entry.bytes.now result }
{
    let frame = Frame::try_from(line)?;
    let figures = match frame {
        Frame::Integrator(digits) => integrator_figures(digits.bytes),
        Frame::Servo(digits) => servo_figures(digits.bytes),
        _ => return Err(Refusal::FrameOrder),
    };
    let Some(figures) = figures else {
        return Err(Refusal::FrameDigits);
    };
    if figures.unit != next {
        return Err(Refusal::UnitOrder);
    }
    figures.made()
}

impl UnitFrame {
    // The unit that can be made of the figures; refused where one of them is out of its range.
    fn made(self) -> Result<UnitFigures, Refusal>
        ensures { UnitOf (λ u. make_frame u self.make self.position self.divisor self.sense) result }
    {
        let Ok(sense) = Sense::try_from(self.sense) else {
            return Err(Refusal::FigureOutOfRange);
        };
        let position = self.position.cast_signed();
        match self.make {
            MakeFigures::Integrator { length, residue } => {
                house_integrator(
                    length,
                    i64::from(position),
                    i64::from(residue),
                    self.divisor,
                    sense,
                )?;
            }
            MakeFigures::Servo { limit } => {
                house_servo(limit, i64::from(position), self.divisor, sense)?;
            }
        }
        Ok(UnitFigures {
            make: self.make,
            position,
            divisor: self.divisor,
            sense,
        })
    }
}
