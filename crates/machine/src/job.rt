ghost use Rattle.std.specs.Prelude.{◌≡◌, ◌≤◌};
ghost use Rattle.net.specs.Limits.{most_units};

use unit::refusal::Refusal;

pub mod open;
pub mod run;
pub mod tell;
pub mod wiring;

// A job whose rack and net may be changed: it takes place, plug, clear and set. Rack and net are lent at each call, apart: both
// are the caller's, who reads the rack between calls.
#[derive(Debug, Drop)]
pub struct OpenJob {
    units: u8,
    ghost few: { units ≤ most_units },
}

// A job that runs: it takes feed, tick, run, read, row and reopen. No `Job<State>` for both: they have one number and no method in
// common, which a marker would not make plainer.
#[derive(Debug, Drop)]
pub struct SetJob {
    units: u8,
    ghost few: { units ≤ most_units },
}

// A job that could not be set comes back as it was, with the refusal. No `Returned<OpenJob>`: what comes back is no unit.
#[derive(Debug, Drop)]
pub struct NotSet {
    pub job: OpenJob,
    pub refusal: Refusal,
}

// For a caller that lets the job go.
impl From<NotSet> for Refusal {
    ghost from_gives = { λ e r. r ≡ e.refusal };

    fn from(back: NotSet) -> Refusal {
        back.refusal
    }
}
