ghost use Rattle.machine.specs.Checks.{Belongs, PlaceOf};

use net::net::Net;
use unit::refusal::Refusal;

// Refuses a rack or a net that is not of a job of so many units.
pub fn belongs<U>(units: u8, rack: &[U], net: &Net) -> Result<(), Refusal>
    ensures { Belongs units rack.now net.now result }
{
    if units as usize <= rack.len() && net.count() == units {
        Ok(())
    } else {
        Err(Refusal::OtherRackOrNet)
    }
}

// The place in the rack of a unit of a job of so many units.
pub fn place_of(unit: u8, units: u8) -> Result<usize, Refusal>
    ensures { PlaceOf unit units result }
{
    if unit < units {
        Ok(unit as usize)
    } else {
        Err(Refusal::NotThere)
    }
}
