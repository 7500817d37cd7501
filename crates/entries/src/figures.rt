// The figures of each kind of frame, out of its digits; none where it has not the digits of its kind.
ghost use Rattle.std.specs.Prelude.{◌≡◌, ◌∷◌, MatchOption};
ghost use Rattle.hexa.specs.Hex.{BadDigits};
ghost use Rattle.frames.specs.Frames.{count, last};
ghost use Rattle.entries.specs.Entries.{Says, UnitSays, TapSays};

use frames::widths::{COUNT, INTEGRATOR, LAST, SERVO, TAP};
use hexa::figures;
use sheet::parts::MakeFigures;

// What the frame of a unit says, by the numbers that its digits write; its position is in two's complement.
#[derive(Clone, Copy, PartialEq, Eq, Debug)]
pub struct UnitFrame {
    pub unit: u8,
    pub make: MakeFigures,
    pub position: u32,
    pub divisor: u8,
    // a number, as the digits have it: whether a sense has it is asked when the unit is made
    pub sense: u8,
}

// The number of units.
pub fn count_figure(digits: &[u8]) -> Option<u8>
    ensures { MatchOption result (BadDigits 2 digits.now) (λ c. Says (80 ∷ digits.now) (count c)) }
{
    let [units] = figures(digits, COUNT)?;
    Some(units as u8)
}

// An integrator and a servo have figures of their own; what their frames share is `UnitFrame`.
pub fn integrator_figures(digits: &[u8]) -> Option<UnitFrame>
    ensures { MatchOption result (BadDigits 24 digits.now) (UnitSays (73 ∷ digits.now)) }
{
    let [unit, length, position, residue, divisor, sense] = figures(digits, INTEGRATOR)?;
    Some(UnitFrame {
        unit: unit as u8,
        make: MakeFigures::Integrator {
            length: length as u8,
            residue,
        },
        position,
        divisor: divisor as u8,
        sense: sense as u8,
    })
}

pub fn servo_figures(digits: &[u8]) -> Option<UnitFrame>
    ensures { MatchOption result (BadDigits 22 digits.now) (UnitSays (83 ∷ digits.now)) }
{
    let [unit, limit, position, divisor, sense] = figures(digits, SERVO)?;
    Some(UnitFrame {
        unit: unit as u8,
        make: MakeFigures::Servo { limit },
        position,
        divisor: divisor as u8,
        sense: sense as u8,
    })
}

// Unit, sign and source of a tap.
pub fn tap_figures(digits: &[u8]) -> Option<(u8, u8, u8)>
    ensures { MatchOption result (BadDigits 6 digits.now) (λ v. TapSays digits.now v.0 v.1 v.2) }
{
    let [unit, sign, source] = figures(digits, TAP)?;
    Some((unit as u8, sign as u8, source as u8))
}

// Ticks and step.
pub fn last_figures(digits: &[u8]) -> Option<(u32, u32)>
    ensures { MatchOption result (BadDigits 12 digits.now) (λ v. Says (71 ∷ digits.now) (last v.0 v.1)) }
{
    let [ticks, step] = figures(digits, LAST)?;
    Some((ticks, step))
}
