ghost use Rattle.std.specs.Prelude.{◌≤◌, pos, ◌+ℤ◌, ◌-ℤ◌, ◌*ℤ◌, ◌≤ℤ◌, ◌<ℤ◌, unsigned_abs};
ghost use Rattle.unit.specs.Pulses.{value};
ghost use Rattle.unit.specs.Sizes.{largest};
ghost use Rattle.unit.specs.Solutions.{InBand, Solves, OnlySolution};

use unit::pulse::Pulse;

// Division with a band: the pulse z and the residue r with modulus · z + r = v and r among the `modulus` numbers
// from `low` on. For makes and layers alone: v is at most one modulus off the band, so that a pulse suffices.
pub fn divide(v: i64, modulus: u32, low: i64) -> (Pulse, i64)
    requires near { unsigned_abs low ≤ largest }
    requires above { (low -ℤ pos modulus) ≤ℤ v }
    requires below { v <ℤ ((low +ℤ pos modulus) +ℤ pos modulus) }
    ensures { OnlySolution modulus low v (value result.0) result.1 }
{
    let modulus = i64::from(modulus);
    if v < low {
        (Pulse::Minus, v + modulus)
    } else if v < low + modulus {
        (Pulse::Zero, v)
    } else {
        (Pulse::Plus, v - modulus)
    }
}

// The pulse and the residue after a step with this weight, in a band from 0.
pub fn renew(residue: i64, weight: i64, x: Pulse, modulus: u32) -> (Pulse, i64)
    requires band { InBand modulus (pos 0) residue }
    requires light { unsigned_abs weight ≤ modulus }
    ensures { OnlySolution modulus (pos 0) (residue +ℤ (weight *ℤ value x)) (value result.0) result.1 }
{
    divide(residue + x.times(weight), modulus, 0)
}
