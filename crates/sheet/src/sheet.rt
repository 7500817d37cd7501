ghost use Rattle.std.specs.Prelude.{◌≡◌, ◌≤◌, length};
ghost use Rattle.std.specs.List.{All};
ghost use Rattle.frames.specs.Rules.{Lawful};
ghost use Rattle.fixedvec.specs.Items.{items};
ghost use Rattle.sheet.specs.Patches.{frames, LawfulPatch, Placed, HasSource};

use crate::parts::{Plug, UnitFigures};
use fixedvec::FixedVec;
use std::alloc::AllocError;

// A patch sheet. Its frames keep all the rules of a patch text (`lawful`); positions and sources are those that the numbers in the
// frames stand for (`placed`, `sourced`); and `room` says how many taps there may be, as the vector of taps does by its capacity.
#[derive(Copy, PartialEq, Eq, Debug)]
pub struct Sheet {
    units: FixedVec<UnitFigures, 64>,
    plugs: FixedVec<Plug, 320>,
    ticks: u32,
    step: u32,
    ghost room: { length (items plugs) ≤ 320 },
    ghost lawful: { ∥ Lawful (frames (items units) (items plugs) ticks step) ∥₁ },
    ghost placed: { All Placed (items units) },
    ghost sourced: { All (HasSource (length (items units))) (items plugs) },
}

impl Sheet {
    ghost use Rattle.sheet.specs.Texts.{frames_of};
    ghost use Rattle.sheet.specs.Views.{Blank, UnitTold, units_of, taps_of, unit_taps};

    // One upright integrator of length 1 at 0, no taps, no ticks, step 1.
    pub fn blank() -> Sheet
        ensures { Blank result }
    {
        let mut units = FixedVec::new();
        units.push(UnitFigures::default());
        Sheet {
            units,
            plugs: FixedVec::new(),
            ticks: 0,
            step: 1,
        }
    }

    // The sheet of a patch that is known to be lawful; for the reader of patch texts.
    pub fn of_parts(
        units: FixedVec<UnitFigures, 64>,
        plugs: FixedVec<Plug, 320>,
        ticks: u32,
        step: u32,
    ) -> Sheet
        requires { LawfulPatch (items units) (items plugs) ticks step }
        ensures { frames_of result ≡ frames (items units) (items plugs) ticks step }
    {
        Sheet {
            units,
            plugs,
            ticks,
            step,
        }
    }

    // How many units the patch has.
    pub fn count(&self) -> u8
        ensures { result ≡ length (units_of self.now) }
    {
        self.units().len() as u8
    }

    // The figures of one unit, if the patch has it.
    pub fn unit(&self, unit: u8) -> Option<UnitFigures>
        ensures { UnitTold self.now unit result }
    {
        self.units().get(unit as usize).copied()
    }

    // The figures of all units, by their numbers.
    pub fn units(&self) -> &[UnitFigures]
        ensures { result.now ≡ units_of self.now }
    {
        self.units.as_slice()
    }

    // All taps, by rising unit, and a unit's x tap first.
    pub fn taps(&self) -> &[Plug]
        ensures { result.now ≡ taps_of self.now }
    {
        self.plugs.as_slice()
    }

    // The taps of one unit, its x tap first.
    pub fn taps_of(&self, unit: u8) -> &[Plug]
        ensures { result.now ≡ unit_taps unit self.now }
    {
        let taps = self.taps();
        let start = taps.partition_point(|plug| plug.unit < unit);
        let end = taps.partition_point(|plug| plug.unit <= unit);
        &taps[start..end]
    }

    // How many ticks the patch asks for.
    pub fn ticks(&self) -> u32
        ensures { result ≡ self.now.ticks }
    {
        self.ticks
    }

    // The number of ticks from one set of rows to the next.
    pub fn step(&self) -> u32
        ensures { result ≡ self.now.step }
    {
        self.step
    }
}

// Written out beside `Copy`, with the clause that a copy is the same sheet.
impl Clone for Sheet {
    ghost use Rattle.std.specs.Prelude.{⊤};

    ghost is_clone = { λ sheet copy. copy ≡ sheet };

    ghost is_infallible = { λ _. ⊤ };

    fn clone(&self) -> Result<Self, AllocError> {
        Ok(*self)
    }
}
