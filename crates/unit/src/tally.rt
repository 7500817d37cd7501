ghost use Rattle.std.specs.Prelude.{◌≡◌, ◌<◌, ◌≤◌, ◌+ℤ◌, MatchOption, unsigned_abs};
ghost use Rattle.unit.specs.Pulses.{value, total};
ghost use Rattle.unit.specs.Sizes.{largest_tally};

use crate::pulse::Pulse;

// What the y taps of one unit deliver in one tick: a whole number of at most `Tally::LARGEST` in size.
#[derive(Clone, Copy, PartialEq, Eq, Debug)]
pub struct Tally {
    value: i8,
    ghost bounded: { unsigned_abs value ≤ largest_tally },
}

impl Tally {
    // One for each y tap.
    pub const LARGEST: i8 = 4;

    // The tally of this value, or none where it is too large: an `Option`, as of `NonZero::new`, for a `TryFrom` would want an
    // error of its own that says no more.
    pub fn new(value: i8) -> Option<Tally>
        ensures { MatchOption result (largest_tally < unsigned_abs value) (λ t. t.value ≡ value) }
    {
        if value > Self::LARGEST || value < -Self::LARGEST {
            return None;
        }
        Some(Tally { value })
    }

    // The field, which nobody else may write.
    pub fn value(self) -> i8
        ensures { result ≡ self.value }
    {
        self.value
    }
}

// What one tap delivers.
impl From<Pulse> for Tally {
    ghost from_gives = { λ pulse tally. tally.value ≡ value pulse };

    fn from(pulse: Pulse) -> Tally {
        Tally {
            value: i8::from(pulse),
        }
    }
}

// What four taps deliver.
impl From<[Pulse; 4]> for Tally {
    ghost from_gives = { λ pulses tally. tally.value ≡ total pulses };

    fn from(pulses: [Pulse; 4]) -> Tally {
        let [a, b, c, d] = pulses;
        Tally {
            value: sum(a, b) + sum(c, d),
        }
    }
}

fn sum(a: Pulse, b: Pulse) -> i8
    ensures sum { result ≡ value a +ℤ value b }
    ensures size { unsigned_abs result ≤ 2 }
{
    i8::from(a) + i8::from(b)
}
