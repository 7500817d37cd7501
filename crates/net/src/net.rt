ghost use Rattle.std.specs.Prelude.{◌≡◌, ◌≤◌, length};
ghost use Rattle.std.specs.List.{All};
ghost use Rattle.net.specs.Bounds.{NetWithin, WorkWithin, Wired};
ghost use Rattle.net.specs.Limits.{most_ticks, most_units};

use crate::table::Table;
use unit::pulse::Pulse;

pub mod changes;
pub mod reads;

// The net of a rack. Its bounds hold of every net there can be, whatever rack it is put together with.
#[derive(Clone, Copy, PartialEq, Eq, Debug)]
pub struct Net {
    count: u8,
    ticks: u32,
    table: Table,
    outside: [Option<Pulse>; 4],
    ghost few: { count ≤ most_units },
    ghost early: { ticks ≤ most_ticks },
    ghost four: { length outside ≡ 4 },
    ghost emitted: { All (NetWithin ticks) table.records },
    ghost worked: { All (WorkWithin ticks) table.records },
    ghost wired: { All (Wired count) table.records },
}
