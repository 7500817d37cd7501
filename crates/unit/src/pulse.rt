ghost use Rattle.std.specs.Prelude.{◌≡◌, ◌≤◌, ◌*ℤ◌, unsigned_abs};
ghost use Rattle.unit.specs.Pulses.{value, opposite};
ghost use Rattle.unit.specs.Sizes.{largest};

// What a line carries in one tick: one down, nothing, or one up.
#[derive(Clone, Copy, PartialEq, Eq, Debug)]
pub enum Pulse {
    Minus,
    Zero,
    Plus,
}

// The pulse as a number: -1, 0 or 1.
impl From<Pulse> for i8 {
    ghost from_gives = { λ pulse n. n ≡ value pulse };

    fn from(pulse: Pulse) -> i8 {
        match pulse {
            Pulse::Minus => -1,
            Pulse::Zero => 0,
            Pulse::Plus => 1,
        }
    }
}

impl Pulse {
    // The pulse of the opposite sign.
    pub fn opposite(self) -> Pulse
        ensures { result ≡ opposite self }
    {
        match self {
            Pulse::Minus => Pulse::Plus,
            Pulse::Zero => Pulse::Zero,
            Pulse::Plus => Pulse::Minus,
        }
    }

    // A weight times the pulse. For the crates above alone: a unit's weight is never larger. The same bound is asked of residues and
    // of work, and stays a clause: a type for it would be wrapped and unwrapped at each sum.
    pub fn times(self, weight: i64) -> i64
        requires { unsigned_abs weight ≤ largest }
        ensures product { result ≡ weight *ℤ value self }
        ensures light { unsigned_abs result ≤ unsigned_abs weight }
    {
        match self {
            Pulse::Minus => -weight,
            Pulse::Zero => 0,
            Pulse::Plus => weight,
        }
    }
}
