ghost use Rattle.std.specs.Prelude.{◌+◌, ◌≤◌};

use std::cmp::Ordering;
use wires::tap::Input;

// The unit of the tap above, and how many taps and y taps it has so far: a unit has one x tap and four y taps at most.
#[derive(Clone, Copy, PartialEq, Eq, Debug)]
pub struct Latest {
    unit: u8,
    taps: u8,
    ys: u8,
    ghost some: { ys ≤ taps },
    ghost one_x: { taps ≤ ys + 1 },
    ghost four_ys: { ys ≤ 4 },
}

impl Latest {
    ghost use Rattle.entries.specs.Turns.{Began, Here, Followed};

    // A unit has so many y taps at most.
    const MOST_YS: u8 = 4;

    // Before the first tap.
    pub fn start() -> Latest
        ensures { Began result }
    {
        Latest {
            unit: 0,
            taps: 0,
            ys: 0,
        }
    }

    // With one tap more, where it may stand: taps go by rising unit, an x tap is its unit's first, and a unit has four y taps.
    pub fn with(self, unit: u8, input: Input) -> Option<Latest>
        ensures { Followed self unit input result }
    {
        let here = self.at(unit)?;
        // Literals in full: a struct with ghost fields is refused a `..`.
        match input {
            Input::X if here.taps == 0 => Some(Latest {
                unit,
                taps: 1,
                ys: 0,
            }),
            Input::Y if here.ys < Self::MOST_YS => Some(Latest {
                unit,
                taps: here.taps + 1,
                ys: here.ys + 1,
            }),
            _ => None,
        }
    }

    // The taps of a unit so far, unless a later unit has some.
    fn at(self, unit: u8) -> Option<Latest>
        ensures { Here self unit result }
    {
        match unit.cmp(&self.unit) {
            Ordering::Less => None,
            Ordering::Equal => Some(self),
            Ordering::Greater => Some(Latest {
                unit,
                taps: 0,
                ys: 0,
            }),
        }
    }
}
