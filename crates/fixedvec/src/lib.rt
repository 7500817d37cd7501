// A vector of a fixed capacity whose items lie in the value itself. It is `Copy`, as the kit's vectors are not, so what holds one can
// be `Copy` too.
#![tactic(auto)]

ghost use Rattle.std.specs.Prelude.{◌≡◌, ◌-◌, ◌<◌, ◌≤◌, [], ◌∷◌, ◌++◌, length, drop, replicate};

use std::alloc::AllocError;

// What an unused place holds.
pub trait Filler: Copy {
    ghost filler: { Self };

    fn filler() -> Self
        ensures { result ≡ filler };
}

// At most `CAP` items. Unused places hold the filler, so that vectors of the same items are equal.
#[derive(Copy, PartialEq, Eq, Debug)]
pub struct FixedVec<T: Filler, const CAP: usize> {
    places: [T; CAP],
    len: usize,
    ghost few: { len ≤ CAP },
    ghost full: { length places ≡ CAP },
    ghost spare: { drop len places ≡ replicate (CAP - len) T.filler },
}

impl<T: Filler, const CAP: usize> FixedVec<T, CAP> {
    ghost use Rattle.fixedvec.specs.Items.{items};

    // No items.
    pub fn new() -> Self
        ensures { items result ≡ [] }
    {
        FixedVec {
            places: [T::filler(); CAP],
            len: 0,
        }
    }

    // One item more, behind the others. For the crates above alone, which know that there is room.
    pub fn push(&mut self, item: T)
        requires { length (items self.old) < CAP }
        ensures { items self.new ≡ items self.old ++ item ∷ [] }
    {
        let len = self.len;
        self.places[len] = item;
        self.len = len + 1;
    }

    // The items, without the unused places.
    pub fn as_slice(&self) -> &[T]
        ensures items { result.now ≡ items self.now }
        ensures fits { length result.now ≤ CAP }
    {
        &self.places[..self.len]
    }
}

// `Copy` asks for a `Clone`, and none can be derived for a generic struct with a ghost field.
impl<T: Filler, const CAP: usize> Clone for FixedVec<T, CAP> {
    ghost use Rattle.std.specs.Prelude.{⊤};

    ghost is_clone = { λ v w. w ≡ v };

    ghost is_infallible = { λ _. ⊤ };

    fn clone(&self) -> Result<Self, AllocError> {
        Ok(*self)
    }
}
