// What a sheet says of one unit and of one tap.
use fixedvec::Filler;
use layers::turn::Sense;
use wires::source::Source;
use wires::tap::{Input, Sign, Tap};

// The figures that only one make has.
#[derive(Clone, Copy, PartialEq, Eq, Debug)]
pub enum MakeFigures {
    Integrator { length: u8, residue: u32 },
    Servo { limit: u32 },
}

// A unit: its make, in a divider, in a turn layer.
#[derive(Clone, Copy, PartialEq, Eq, Debug)]
pub struct UnitFigures {
    pub make: MakeFigures,
    pub position: i32,
    pub divisor: u8,
    pub sense: Sense,
}

// An upright integrator of length 1 at 0, as the blank sheet has it.
impl Default for UnitFigures {
    ghost use Rattle.std.specs.Prelude.{◌≡◌};
    ghost use Rattle.sheet.specs.Patches.{blank_unit};

    ghost is_default = { λ x. x ≡ blank_unit };

    fn default() -> Self {
        UnitFigures {
            make: MakeFigures::Integrator {
                length: 1,
                residue: 0,
            },
            position: 0,
            divisor: 1,
            sense: Sense::Upright,
        }
    }
}

impl Filler for UnitFigures {
    ghost use Rattle.sheet.specs.Patches.{blank_unit};

    ghost filler = { blank_unit };

    fn filler() -> Self {
        UnitFigures::default()
    }
}

// A tap, and the unit and the input that it is plugged into.
#[derive(Clone, Copy, PartialEq, Eq, Debug)]
pub struct Plug {
    pub unit: u8,
    pub input: Input,
    pub tap: Tap,
}

// An x tap of unit 0 that reads unit 0 as it is.
impl Default for Plug {
    ghost use Rattle.std.specs.Prelude.{◌≡◌};
    ghost use Rattle.sheet.specs.Patches.{blank_plug};

    ghost is_default = { λ p. p ≡ blank_plug };

    fn default() -> Self {
        Plug {
            unit: 0,
            input: Input::X,
            tap: Tap {
                sign: Sign::Plus,
                source: Source::Place(0),
            },
        }
    }
}

impl Filler for Plug {
    ghost use Rattle.sheet.specs.Patches.{blank_plug};

    ghost filler = { blank_plug };

    fn filler() -> Self {
        Plug::default()
    }
}
