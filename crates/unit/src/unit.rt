ghost use Rattle.std.specs.Prelude.{◌≡◌, ◌+ℤ◌, Decides};
ghost use Rattle.unit.specs.Figures.{Figures, Lawful, Stepped, Inside, weight_now, told_modulus, told_residue};

use crate::pulse::Pulse;
use crate::tally::Tally;

// The largest modulus that a unit tells.
pub const LARGEST: u64 = 4_294_967_296;

// A unit of the machine, of whatever make and in whatever layers: it means its figures.
pub trait Unit {
    ghost figures: { Self → Figures };

    // Moves the position by the tally and emits a pulse; refuses where the position would leave the range.
    fn step(&mut self, x: Pulse, tally: Tally) -> Option<Pulse>
        ensures { Stepped figures self.old x tally.value result self.new };

    // Whether a step with this tally would be accepted.
    fn accepts(&self, tally: Tally) -> bool
        ensures { Decides result (Inside (figures self.now).constants ((figures self.now).position +ℤ tally.value)) };

    fn position(&self) -> i64
        ensures { result ≡ (figures self.now).position };

    // The weight at the position where the unit stands.
    fn weight(&self) -> i64
        ensures { result ≡ weight_now (figures self.now) };

    // The residue, or 0 where the modulus is told as 0.
    fn residue(&self) -> i64
        ensures { result ≡ told_residue (figures self.now) };

    // The modulus, or 0 where it is above 4,294,967,296: so it is told, and not by an `Option`.
    fn modulus(&self) -> u64
        ensures { result ≡ told_modulus (figures self.now) };

    // The bounds that every value of the make keeps.
    ghost lawful: { (u : Self) → Lawful (figures u) };
}
