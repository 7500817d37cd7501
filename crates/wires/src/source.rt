ghost use Rattle.std.specs.Prelude.{◌≡◌, min, true, MatchOption, ◌≢◌};
ghost use Rattle.wires.specs.Sources.{code_of, there};
ghost use Rattle.wires.specs.declared.source.Source.{Source};

// What a tap reads: the line of the unit at a place of the rack, an outside line, or the clock.
#[derive(Clone, Copy, PartialEq, Eq, Debug)]
pub enum Source {
    Place(u8),
    Outside(u8),
    Clock,
}

impl Source {
    // The source that goes by this code in a job of so many units, if it is there. No `TryFrom`: a code alone does not tell.
    pub fn of(code: u8, units: u8) -> Option<Source>
        ensures { MatchOption result ((s : Source) → there units s ≡ true → code_of s ≢ code) (λ s. (there units s ≡ true) × (code_of s ≡ code)) }
    {
        match code {
            0x00..=0x3F if code < units => Some(Source::Place(code)),
            0x40..=0x43 => Some(Source::Outside(code - 0x40)),
            0x50 => Some(Source::Clock),
            _ => None,
        }
    }

    // The code that the source goes by; 255 for an outside line that is too far out to have one, so this is no `From`. It cannot
    // fail, since every source that is there has a code.
    pub fn code(self) -> u8
        ensures { result ≡ min (code_of self) 255 }
    {
        match self {
            Source::Place(place) => place,
            Source::Outside(line) => line.saturating_add(0x40),
            Source::Clock => 0x50,
        }
    }
}
