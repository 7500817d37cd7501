ghost use Rattle.std.specs.Prelude.{◌≡◌, ◌<◌, ◌≤◌, ℤ, pos, ◌+ℤ◌, neg_ℤ, MatchOption, unsigned_abs};
ghost use Rattle.unit.specs.Sizes.{largest};

use unit::tally::Tally;

// The position moved by the tally, unless that leaves the range from -limit to limit.
pub fn moved(position: i64, tally: Tally, limit: u32) -> Option<i64>
    requires { unsigned_abs position ≤ limit }
    ensures { MatchOption result (limit < unsigned_abs (position +ℤ tally.value)) (λ p. (p ≡ position +ℤ tally.value) × (unsigned_abs p ≤ limit)) }
{
    let limit = i64::from(limit);
    let p = position + i64::from(tally.value());
    if p < -limit || p > limit {
        return None;
    }
    Some(p)
}
